//! Laws of the definitions: what a transmitter sends and what is logged of it follow from its own lives.

ghost use Rattle.std.specs.Prelude.{◌≡◌, ◌≢◌, ◌++◌, ◌∷◌, [], ℕ, List, Some, None, false, length, slice_get};
ghost use Rattle.dtx_plan.specs.declared.transmitter.Transmitter.{Transmitter};
ghost use Rattle.dtx_plan.specs.TransmitterTable.{has_address};
ghost use Rattle.dtx_plan.specs.Sound.{AreTransmitters};
ghost use Rattle.dtx_exciter.specs.Packets.{last_answer};
ghost use Rattle.dtx_exciter.specs.Emission.{last_segments};
ghost use Rattle.dtx_exciter.specs.Log.{restart, line_of};
ghost use Rattle.dtx_net.specs.Steps.{Step, packet_step, restart_step, transmitter_place};
ghost use Rattle.dtx_net.specs.Lives.{own_steps, joined_steps, lives_of, last_life, ended_lives, sent_segments};
ghost use Rattle.dtx_net.specs.Lives.{lines_of};

/// A transmitter sends and logs the same in any two schedules that give it the same lives. Two schedules do so if they
/// have the same steps of that transmitter, whatever is done with others and when. Steps of others, anywhere among its
/// own, change none of its lives.
pub fn interleavings()
    ensures segments { (t : Transmitter) (who : ℕ) (steps others : List Step) → lives_of who steps ≡ lives_of who others
        → sent_segments t who steps ≡ sent_segments t who others }
    ensures lines { (t : Transmitter) (who : ℕ) (steps others : List Step) → lives_of who steps ≡ lives_of who others
        → lines_of t who steps ≡ lines_of t who others }
    ensures own { (t : Transmitter) (who : ℕ) (steps others : List Step)
        → own_steps who steps ≡ own_steps who others
        → (lives_of who steps ≡ lives_of who others) × (sent_segments t who steps ≡ sent_segments t who others)
        × (lines_of t who steps ≡ lines_of t who others) }
    ensures anywhere { (who : ℕ) (before after : List Step) (step : Step) → step.who ≢ who
        → lives_of who (before ++ step ∷ after) ≡ lives_of who (before ++ after) }
    ensures elsewhere { (who : ℕ) (steps : List Step) (step : Step) → step.who ≢ who
        → lives_of who (steps ++ step ∷ []) ≡ lives_of who steps }
{}

/// A transmitter's lives, joined with a restart between any two, are all its steps in order.
pub fn lives_are_cut()
    ensures { (who : ℕ) (steps : List Step) → joined_steps (lives_of who steps) ≡ own_steps who steps }
{}

/// A packet is given to the last life, and a restart begins a new one, which is empty.
pub fn one_step_more()
    ensures nothing { (who : ℕ) → lives_of who [] ≡ [] ∷ [] }
    ensures lives { (who : ℕ) (steps : List Step)
        → lives_of who steps ≡ ended_lives who steps ++ last_life who steps ∷ [] }
    ensures given { (who : ℕ) (steps : List Step) (packet : List ℕ)
        → lives_of who (steps ++ packet_step who packet ∷ []) ≡ ended_lives who steps
        ++ (last_life who steps ++ packet ∷ []) ∷ [] }
    ensures restarted { (who : ℕ) (steps : List Step)
        → lives_of who (steps ++ restart_step who ∷ []) ≡ lives_of who steps ++ [] ∷ [] }
{}

/// One more packet adds the segments that it gives to what the transmitter sends, and the line of its answer to the
/// log.
pub fn one_packet_is_sent()
    ensures segments { (t : Transmitter) (who : ℕ) (steps : List Step) (packet : List ℕ)
        → sent_segments t who (steps ++ packet_step who packet ∷ []) ≡ sent_segments t who steps
        ++ last_segments t.address t.delay (last_life who steps ++ packet ∷ []) }
    ensures lines { (t : Transmitter) (who : ℕ) (steps : List Step) (packet : List ℕ)
        → lines_of t who (steps ++ packet_step who packet ∷ [])
        ≡ lines_of t who steps ++ line_of (length (sent_segments t who steps))
        (length (last_segments t.address t.delay (last_life who steps ++ packet ∷ [])))
        (last_answer t.address t.delay (last_life who steps ++ packet ∷ [])) }
{}

/// A restart sends nothing. It is logged with the number of segments so far.
pub fn one_restart_is_logged()
    ensures segments { (t : Transmitter) (who : ℕ) (steps : List Step)
        → sent_segments t who (steps ++ restart_step who ∷ []) ≡ sent_segments t who steps }
    ensures lines { (t : Transmitter) (who : ℕ) (steps : List Step)
        → lines_of t who (steps ++ restart_step who ∷ []) ≡ lines_of t who steps
        ++ restart (length (sent_segments t who steps)) ∷ [] }
{}

/// The place of an address is the index of the transmitter that has it. There is none exactly if no transmitter has it.
pub fn places()
    ensures found { (ts : List Transmitter) (address who : ℕ) → transmitter_place address ts ≡ Some who
        → (t : Transmitter) × (slice_get ts who ≡ Some t) × (t.address ≡ address) }
    ensures only { (ts : List Transmitter) (who : ℕ) (t : Transmitter) → AreTransmitters ts → slice_get ts who ≡ Some t
        → transmitter_place t.address ts ≡ Some who }
    ensures missing { (ts : List Transmitter) (address : ℕ) → transmitter_place address ts ≡ None
        → has_address address ts ≡ false }
{}
