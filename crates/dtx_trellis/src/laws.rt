//! Laws of the definitions: stepping a state gives the sums, and groups go on from the states that the groups before
//! them leave. Further laws are entries of the standard's tables.

ghost use Rattle.std.specs.Prelude.{◌≡◌, ℕ, ◌+◌, ◌*◌, ◌/◌, ◌%◌, ◌<◌, ◌≤◌, ◌++◌, List, [], ◌∷◌, length, map, replicate};
ghost use Rattle.std.specs.Prelude.{slice_index};
ghost use Rattle.dtx_trellis.specs.Trellis.{State, AreBits, level, level_of, next_of, number_of, state_after, state_of};
ghost use Rattle.dtx_trellis.specs.Trellis.{byte_place, coder_at, group_place, higher, lower, pair_in};
ghost use Rattle.dtx_trellis.specs.Groups.{coder_after, level_at, levels_of, states_after};

use dtx_sizes::GROUP_BYTES;

/// The first data symbols of segments 0 to 4 of a field (ATSC A/53 Part 2, the table of byte to symbol conversion). The
/// law gives their coders, the bytes of the field from which these work, and the bits of the byte that they take. The
/// bits are 7 and 6, 5 and 4, 3 and 2, 1 and 0, and 7 and 6 again.
#[tactic(auto, using(crate::proofs::Rows::coders, crate::proofs::Rows::places, crate::proofs::Rows::bits))]
pub fn first_symbols()
    ensures coders { coder_at 0 0 ∷ coder_at 0 828 ∷ coder_at 0 1656 ∷ coder_at 0 2484 ∷ coder_at
        (group_place 0 1) 0 ∷ [] ≡ 0 ∷ 4 ∷ 8 ∷ 0 ∷ 4 ∷ [] }
    ensures bytes { byte_place 0 0 0 ∷ byte_place 0 69 4 ∷ byte_place 0 138 8 ∷ byte_place 0 207 0 ∷
        (GROUP_BYTES + byte_place (group_place 0 1) 0 4) ∷ [] ≡ 0 ∷ 208 ∷ 412 ∷ 616 ∷ 828 ∷ [] }
    ensures bits { (b : ℕ) → pair_in b 0 ∷ pair_in b 69 ∷ pair_in b 138 ∷ pair_in b 207 ∷ pair_in b 276 ∷ []
        ≡ b / 64 % 4 ∷ b / 16 % 4 ∷ b / 4 % 4 ∷ b % 4 ∷ b / 64 % 4 ∷ [] }
{}

/// The level and the next state of each q1 and q0, for X1 = 0 and for X1 = 1, where q2 and X2 are 0.
pub fn table()
    ensures levels_without { map (λ n. level_of (state_of n) 0 0) (0 ∷ 1 ∷ 2 ∷ 3 ∷ []) ≡ 0 ∷ 0 ∷ 1 ∷ 1 ∷ [] }
    ensures levels_with { map (λ n. level_of (state_of n) 0 1) (0 ∷ 1 ∷ 2 ∷ 3 ∷ []) ≡ 2 ∷ 2 ∷ 3 ∷ 3 ∷ [] }
    ensures nexts_without { map (λ n. number_of (next_of (state_of n) 0 0)) (0 ∷ 1 ∷ 2 ∷ 3 ∷ []) ≡ 0 ∷ 2 ∷ 1 ∷ 3 ∷ [] }
    ensures nexts_with { map (λ n. number_of (next_of (state_of n) 0 1)) (0 ∷ 1 ∷ 2 ∷ 3 ∷ []) ≡ 2 ∷ 0 ∷ 3 ∷ 1 ∷ [] }
{}

/// Byte 0x40 goes into coder 0 from state 0, with zeros behind it. The law gives its first five levels, which are the
/// symbols -3, -5, -7, -5 and -7, and its state after the first.
#[tactic(auto, using(crate::proofs::Rows::levels_of_byte, crate::proofs::Rows::state_of_byte))]
pub fn one_byte()
    ensures levels { map (λ r. level_at 0 (replicate 12 0) (0x40 ∷ replicate 827 0) (12 * r)) (0 ∷ 1 ∷ 2 ∷ 3 ∷ 4 ∷ [])
        ≡ 2 ∷ 1 ∷ 0 ∷ 1 ∷ 0 ∷ [] }
    ensures state { coder_after 0 (replicate 12 0) (0x40 ∷ replicate 827 0) 1 0 ≡ record { q2 = 0; q1 = 1; q0 = 0 } }
{}

/// Stepping a coder pair by pair gives the sums over all pairs.
#[tactic(auto, using(crate::proofs::StepsLemmas::after_zero, crate::proofs::StepsLemmas::state_step, crate::proofs::StepsLemmas::level_step))]
pub fn steps()
    ensures first { (q : State) (a b : List ℕ) → state_after q a b 0 ≡ q }
    ensures next { (q : State) (a b : List ℕ) (t : ℕ) → AreBits q → t < length a
        → state_after q a b (t + 1) ≡ next_of (state_after q a b t) (slice_index a t) (slice_index b t) }
    ensures level { (q : State) (a b : List ℕ) (t : ℕ) → AreBits q → t < length a
        → level q a b t ≡ level_of (state_after q a b t) (slice_index a t) (slice_index b t) }
{}

/// The sums go on from the state after some pairs.
#[tactic(auto, using(crate::proofs::GoesOnLemmas::state_goes_on, crate::proofs::GoesOnLemmas::level_goes_on))]
pub fn goes_on()
    ensures states { (q : State) (a b c d : List ℕ) (t : ℕ) → AreBits q → length a ≡ length b → t ≤ length c
        → state_after q (a ++ c) (b ++ d) (length a + t) ≡ state_after (state_after q a b (length a)) c d t }
    ensures levels { (q : State) (a b c d : List ℕ) (t : ℕ) → AreBits q → length a ≡ length b → t < length c
        → level q (a ++ c) (b ++ d) (length a + t) ≡ level (state_after q a b (length a)) c d t }
{}

/// After `u` whole groups the coders go on from the states that these leave.
pub fn group_after_group()
    ensures higher { (s u e : ℕ) (y z : List ℕ) → length y ≡ GROUP_BYTES * u
        → higher s (y ++ z) e ≡ higher s y e ++ higher (group_place s u) z e }
    ensures lower { (s u e : ℕ) (y z : List ℕ) → length y ≡ GROUP_BYTES * u
        → lower s (y ++ z) e ≡ lower s y e ++ lower (group_place s u) z e }
    ensures states { (s u : ℕ) (states y z : List ℕ) → length y ≡ GROUP_BYTES * u
        → states_after s states (y ++ z) ≡ states_after (group_place s u) (states_after s states y) z }
    ensures levels { (s u : ℕ) (states y z : List ℕ) → length y ≡ GROUP_BYTES * u
        → levels_of s states (y ++ z) ≡ levels_of s states y
        ++ levels_of (group_place s u) (states_after s states y) z }
{}
