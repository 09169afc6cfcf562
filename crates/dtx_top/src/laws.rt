//! Laws of the definitions: what follows from how a call ends, and from a network's files.

ghost use Rattle.std.specs.Prelude.{◌≡◌, ◌≢◌, ◌⊎◌, ◌-◌, ◌*◌, ◌/◌, ◌%◌, ◌^◌, ◌<◌, ◌≤◌, ◌∷◌, [], ℕ, IsSomeAnd, List};
ghost use Rattle.std.specs.Prelude.{Option, Some};
ghost use Rattle.std.specs.Prelude.{drop, is_some, length, slice_index_or, true};
ghost use Rattle.std.specs.FinMap.{get};
ghost use Rattle.std.specs.List.{list_any};
ghost use Rattle.dtx_outside.specs.Counts.{Counts, Rose};
ghost use Rattle.dtx_outside.specs.Shelf.{Files};
ghost use Rattle.dtx_outside.specs.Sink.{SinkCounts};
ghost use Rattle.dtx_packets.specs.Packets.{pid_of, packets_of};
ghost use Rattle.dtx_plan.specs.declared.plan.NetPlan.{NetPlan};
ghost use Rattle.dtx_plan.specs.declared.plan.Plan.{Plan};
ghost use Rattle.dtx_plan.specs.declared.transmitter.Transmitter.{Transmitter};
ghost use Rattle.dtx_exciter.specs.Order.{counting_order};
ghost use Rattle.dtx_exciter.specs.Packets.{readings};
ghost use Rattle.dtx_net.specs.Lives.{own_steps};
ghost use Rattle.dtx_net.specs.Lives as sent;
ghost use Rattle.dtx_net.specs.Steps.{Step};
ghost use Rattle.dtx_adapter.specs.Feed.{feed};
ghost use Rattle.dtx_network.specs.Network.{steps_under};
ghost use Rattle.dtx_network.specs.Orders.{has_order};
ghost use Rattle.dtx_network.specs.Plans.{IsPlan, IsStream};
ghost use Rattle.dtx_meaning.specs.Meaning.{IsDone, Meaning};
ghost use Rattle.dtx_meaning.specs.declared.status.Status.{Status};
ghost use Rattle.dtx_meaning.specs.declared.status.Status.TheVariants.{Memory};
ghost use Rattle.dtx_recipes.specs.Adapt.{bytes_of_packets, feed_bytes};
ghost use Rattle.dtx_recipes.specs.Place.{behind, is_open, placed};
ghost use Rattle.dtx_recipes.specs.SymbolFile as file;
ghost use Rattle.dtx_recipes.specs.WatchedFeed.{IsWatchedCalmly};
ghost use Rattle.dtx_schedule.specs.TransmitterFiles.{log_file, symbol_file};
ghost use Rattle.dtx_words.specs.Fitting.{command_of};
ghost use Rattle.dtx_words.specs.Names.{received_name};
ghost use Rattle.dtx_words.specs.declared.rows.Command.TheVariants as command;
ghost use Rattle.dtx_top.specs.Ends.{HasEnded, IsFaultless};
ghost use Rattle.dtx_top.specs.HeadlineOfFiles.{HeadlineOfFiles};
ghost use Rattle.dtx_top.specs.Jobs.{means};
ghost use Rattle.dtx_top.specs.NetProgress.{AreUnderWay, HasNetProgress};
ghost use Rattle.dtx_top.specs.Trial.{trial_made, trial_plan};
ghost use Rattle.dtx_top.specs.WorkedNetwork.{HasAllBack, IsSimple, WorkedNetwork, made_packets};

use dtx_exciter::laws::groups_are_spaced;
use dtx_jobs::laws::watching::sound_feeds_are_watched_calmly;
use dtx_net::laws::interleavings;
use dtx_network::laws::{
    a_feed_is_sound, headline, joined_is_met, listings_of_a_feed, orders_of_a_feed,
    packets_of_a_feed, sends_the_stretch_alone,
};
use dtx_packet_jobs::laws::placing::{fields_with_one, groups_begin_late, what_stays};

/// Nothing is refused without cause. Let a call end in accordance with `IsDone` and `HasEnded`, and let no error of
/// reading, writing or printing be counted. Then its answer is that of the meaning, or out of memory.
pub fn no_answer_is_without_cause()
    ensures { (meaning : Meaning) (start now : Option Files) (status : Status) (before after : Counts)
        (first last : SinkCounts) → IsDone meaning start status (Rose first.faults last.faults) now
        → HasEnded before after first last status
        → IsFaultless before after first last → (status ≡ meaning.outcome.status) ⊎ (status ≡ Memory) }
{}

/// Segment n of a transmitter's symbol file is segment n of those that it sends, and both have as many segments.
pub fn segments_read_back()
    ensures count { (t : Transmitter) (who : ℕ) (steps : List Step)
        → file.whole_segments (symbol_file t who steps) ≡ length (sent.sent_segments t who steps) }
    ensures segments { (t : Transmitter) (who : ℕ) (steps : List Step)
        → file.file_segments (symbol_file t who steps) ≡ sent.sent_segments t who steps }
{}

/// A transmitter's two files depend only on the steps of its own. They are the same under any two schedules that do the
/// same with it, whatever these do with others and when.
pub fn files_of_interleavings()
    ensures symbols { (t : Transmitter) (who : ℕ) (steps others : List Step)
        → own_steps who steps ≡ own_steps who others → symbol_file t who steps ≡ symbol_file t who others }
    ensures log { (t : Transmitter) (who : ℕ) (steps others : List Step)
        → own_steps who steps ≡ own_steps who others → log_file t who steps ≡ log_file t who others }
{
    interleavings();
}

/// The files of the transmitters by their names, wherever a network ends after all of them are begun. Let t steps be
/// done. The symbol file of each begins with all that the first t steps give, and is a prefix of what the first t + 1
/// steps give. The same holds of its log. If t is all steps, both files are whole.
pub fn files_of_a_network_under_way()
    ensures { (plan : Plan) (network : NetPlan) (file : List ℕ) (status : Status) (held now : Files)
        (progress : HasNetProgress plan network file status held (Some now)) → IsPlan plan
        → progress.schedule.begun ≡ 2 * length plan.transmitters
        → AreUnderWay plan.transmitters (steps_under plan (packets_of file) network.events)
        progress.schedule.done now }
{}

/// A simple network meets what the headline asks of transmitters, symbols and damage, with little damage and without.
/// It has at most 35 transmitters. Two of them, of different addresses and in time, are given the whole feed of a
/// stream. The stream has 372 packets or more, and a placeholder in the group from packet 100 on. Nothing else is done,
/// and the first of the two is received.
///
/// Let the headline hold of the files of such a network, as it does after the command `net` is done. Then `net.ts` has
/// exactly the packets of the feed whose bytes are all there, from the stretch's first field sync on. They stand in
/// order, with 0x47 as their sync bytes.
pub fn simple_networks_work()
    ensures works { (plan : Plan) (network : NetPlan) (stream : List (List ℕ)) (a b : Transmitter) (entries : ℕ)
        → IsPlan plan → IsStream stream → IsSimple plan network stream a b entries
        → WorkedNetwork plan network stream 100 entries }
    ensures file { (plan : Plan) (network : NetPlan) (stream : List (List ℕ)) (held now : Files) (entries : ℕ)
        (w : WorkedNetwork plan network stream 100 entries) → HeadlineOfFiles plan network stream held now
        → IsSomeAnd network.receive (λ receiver. IsSomeAnd (get now received_name)
        (HasAllBack plan network stream receiver w.one.k)) }
{
    joined_is_met();
    sends_the_stretch_alone();
    orders_of_a_feed();
    listings_of_a_feed();
    packets_of_a_feed();
    headline();
}

/// Let packet k of a stream be a placeholder, at place 52 of its field or later. Its group of four begins 52 packets or
/// more after the mark of its frame. In the adapter's feed the group has an order that counts, seen from the feed's
/// first packet on, and from each mark up to packet k. (`placed_streams_have_orders` says in which fields there is a
/// placeholder of this kind after `place`.)
pub fn late_placeholders_are_orders()
    ensures late { (k : ℕ) → 52 ≤ k % 312 → 52 ≤ 4 * (k / 4) % 624 }
    ensures order { (plan : Plan) (stream : List (List ℕ)) (k : ℕ) → IsPlan plan → IsStream stream → 52 ≤ k % 312
        → pid_of (slice_index_or stream k []) ≡ 0x1FFA
        → is_some (counting_order (readings (feed plan stream)) (4 * (k / 4))) ≡ true }
    ensures later { (plan : Plan) (stream : List (List ℕ)) (k mark : ℕ) → IsPlan plan → IsStream stream
        → 52 ≤ k % 312 → pid_of (slice_index_or stream k []) ≡ 0x1FFA → mark % 624 ≡ 0 → mark ≤ k
        → is_some (counting_order (readings (drop mark (feed plan stream))) (4 * (k / 4) - mark)) ≡ true }
{
    groups_begin_late();
    orders_of_a_feed();
}

/// A stream in which placeholders were put is a stream. So an adapter's feed of it has all that is proved of feeds.
/// Take each field that holds a null packet or a placeholder at place 52 or later. Then a placeholder stands at one of
/// these places. Its group has an order that counts in that feed, seen from each mark up to it.
pub fn placed_streams_have_orders()
    ensures stream { (stream : List (List ℕ)) → IsStream stream → IsStream (placed stream) }
    ensures orders { (plan : Plan) (stream : List (List ℕ)) (field : ℕ) → IsPlan plan → IsStream stream
        → list_any is_open (behind stream field) ≡ true
        → (k : ℕ) × (k / 312 ≡ field) × (52 ≤ k % 312) × (pid_of (slice_index_or (placed stream) k []) ≡ 0x1FFA)
        × ((mark : ℕ) → mark % 624 ≡ 0 → mark ≤ k
        → is_some (counting_order (readings (drop mark (feed plan (placed stream)))) (4 * (k / 4) - mark)) ≡ true) }
{
    what_stays();
    fields_with_one();
    late_placeholders_are_orders();
}

/// Made packets, at most 624,000,000, are a stream. If there are 104 or more, the group from packet 100 on holds a
/// placeholder.
pub fn made_packets_are_a_stream()
    ensures stream { (seed count : ℕ) → count ≤ 624000000 → IsStream (made_packets seed count) }
    ensures count { (seed count : ℕ) → length (made_packets seed count) ≡ count }
    ensures order { (seed count : ℕ) → 104 ≤ count → has_order (made_packets seed count) 100 ≡ true }
{}

/// A network takes the plan of a trial, and the meaning of a trial is `Done`. So if the files are told, its answer is
/// `Done`, an I/O error or out of memory. It is never `Absent`, `Packet`, `TooLong`, `OutOfFeed` or `NoSync`. The
/// reason: its stream was made, of packets that begin with 0x47, and of as many as the events give. What its third
/// transmitter sends isn't too long, and has a field sync.
pub fn a_trial_is_done()
    ensures plan { (seed count : ℕ) → IsPlan (trial_plan seed count) }
    ensures done { (seed count : ℕ) → seed ≤ 2 ^ 64 - 1 → 624 ≤ count → count ≤ 1000000
        → (trial_made seed count).outcome.status ≡ Status.Done }
    ensures words { (words : List (List ℕ)) (held : Files) → command_of words ≡ Some command.Trial
        → (means words held).outcome.status ≡ Status.Done }
{
    joined_is_met();
    orders_of_a_feed();
    listings_of_a_feed();
    headline();
    groups_are_spaced();
}

/// If the output is another file, `watch` watches every feed with a packet calmly. This holds of the file of all its
/// packets, and of the file of its packets from any of its marks on. The output has the line `lock 0` and one line
/// `ops` for each operations packet, in their order, and no other line. None of these lines has `slip` or `jump`. The
/// printed line has the number of packets, the number of operations packets, and 0 for all else.
pub fn feeds_are_watched_calmly()
    ensures whole { (plan : Plan) (stream : List (List ℕ)) (verb input output : List ℕ) (held : Files) → IsPlan plan
        → IsStream stream → 0 < length stream → command_of (verb ∷ input ∷ output ∷ []) ≡ Some command.Watch
        → input ≢ output → get held input ≡ Some (feed_bytes plan stream)
        → IsWatchedCalmly (output ∷ []) (feed plan stream) 0 (means (verb ∷ input ∷ output ∷ []) held) }
    ensures from_a_mark { (plan : Plan) (stream : List (List ℕ)) (mark : ℕ) (verb input output : List ℕ) (held : Files)
        → IsPlan plan → IsStream stream → mark % 624 ≡ 0 → mark < length stream
        → command_of (verb ∷ input ∷ output ∷ []) ≡ Some command.Watch → input ≢ output
        → get held input ≡ Some (bytes_of_packets (drop mark (feed plan stream)))
        → IsWatchedCalmly (output ∷ []) (drop mark (feed plan stream)) 0 (means (verb ∷ input ∷ output ∷ []) held) }
{
    a_feed_is_sound();
    packets_of_a_feed();
    sound_feeds_are_watched_calmly();
}
