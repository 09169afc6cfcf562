//! Laws of the feed (the profile's own, in the manner of ATSC A/110). Packets are counted from 0, and have 188 bytes.

ghost use Rattle.std.specs.Prelude.{◌≡◌, ◌≢◌, ◌↔◌, ◌++◌, ◌+◌, ◌*◌, ◌/◌, ◌%◌, ◌<◌, ◌≤◌, ◌==◌, [], ℕ, List, All, Ok};
ghost use Rattle.std.specs.Prelude.{IsTrue, Some, None, if◌then◌else◌, length, take, drop, slice_get, slice_index_or};
ghost use Rattle.std.specs.List.{find};
ghost use Rattle.dtx_packets.specs.Packets.{sync_of, pid_of};
ghost use Rattle.dtx_cadence.specs.Mark.{sync_at};
ghost use Rattle.dtx_coder.specs.Stream.{states};
ghost use Rattle.dtx_ops.specs.Paging.{page_of, pages_of, IsPaged};
ghost use Rattle.dtx_ops.specs.declared.paging.Paging.TheVariants.{One, Of};
ghost use Rattle.dtx_ops.specs.Reading.{reading};
ghost use Rattle.dtx_ops.specs.Spelling.{IsEntry};
ghost use Rattle.dtx_plan.specs.Sound.{IsSound};
ghost use Rattle.dtx_plan.specs.declared.plan.Plan.{Plan};
ghost use Rattle.dtx_plan.specs.declared.transmitter.Transmitter.{Transmitter};
ghost use Rattle.dtx_adapter.specs.Feed.{entry_of, placeholders, pages_for, paging_of, is_listed, is_filled};
ghost use Rattle.dtx_adapter.specs.Feed.{filled_groups, ops_at, fed_packet, feed, IsListedIn};

use dtx_sizes::{GROUP_PACKETS, MOST_ENTRIES, MOST_PACKETS, OPERATIONS_PID, PACKET, PAGE_ENTRIES};

/// A feed has as many packets as its stream, and later packets change no earlier one. The placeholders of two parts add
/// up.
pub fn goes_on()
    ensures long { (plan : Plan) (stream : List (List ℕ)) → length (feed plan stream) ≡ length stream }
    ensures front { (plan : Plan) (stream more : List (List ℕ))
        → feed plan (stream ++ more) ≡ feed plan stream ++ drop (length stream) (feed plan (stream ++ more)) }
    ensures filled { (stream more : List (List ℕ))
        → placeholders (stream ++ more) ≡ placeholders stream + placeholders more }
{}

/// The feed of a stream's first n packets is the first n packets of the stream's feed. Packet k of the feed is made of
/// the stream's packets up to packet k and of the feed's packets before it.
pub fn prefix()
    ensures feed { (plan : Plan) (stream : List (List ℕ)) (n : ℕ)
        → feed plan (take n stream) ≡ take n (feed plan stream) }
    ensures packet { (plan : Plan) (stream : List (List ℕ)) (k : ℕ) → k < length stream
        → slice_index_or (feed plan stream) k [] ≡ fed_packet plan stream (take k (feed plan stream)) k }
{}

/// Each placeholder becomes an operations packet that reads as the fields of its place, `ops_at`. No other packet
/// becomes one. Its states are those after all whole groups of the feed before its own. The plan is sound, and each of
/// its transmitters has the numbers of an entry.
pub fn operations_packets()
    ensures read { (plan : Plan) (stream : List (List ℕ)) (k : ℕ) → IsSound plan
        → All (λ t. IsEntry (entry_of t)) plan.transmitters → length stream ≤ MOST_PACKETS
        → k < length stream → pid_of (slice_index_or stream k []) ≡ OPERATIONS_PID
        → reading (slice_index_or (feed plan stream) k []) ≡ Ok (ops_at plan stream (take k (feed plan stream)) k) }
    ensures others { (plan : Plan) (stream : List (List ℕ)) (k : ℕ) → k < length stream
        → pid_of (slice_index_or stream k []) ≢ OPERATIONS_PID
        → pid_of (slice_index_or (feed plan stream) k []) ≢ OPERATIONS_PID }
    ensures states { (plan : Plan) (stream : List (List ℕ)) (k : ℕ)
        → (ops_at plan stream (take k (feed plan stream)) k).states
        ≡ states (take (GROUP_PACKETS * (k / GROUP_PACKETS)) (feed plan stream)) }
{}

/// Up to 35 transmitters stand on the only page. More transmitters stand on the fewest pages of 34 that hold them, and
/// an operations packet carries one page. The number of that page is below the number of pages, which is at most 30.
/// The page lists transmitter i exactly if it is page i / 34. The entry of a transmitter of a sound plan is found by
/// its address exactly in the packets that carry its page, and there has its own offset.
pub fn pages()
    ensures one { (plan : Plan) (stream before : List (List ℕ)) (k : ℕ) → length plan.transmitters ≤ MOST_ENTRIES
        → (ops_at plan stream before k).paging ≡ One }
    ensures many { (plan : Plan) (stream before : List (List ℕ)) (k : ℕ) → MOST_ENTRIES < length plan.transmitters
        → (ops_at plan stream before k).paging
        ≡ Of (filled_groups stream (k / GROUP_PACKETS) % pages_for (length plan.transmitters))
        (pages_for (length plan.transmitters)) }
    ensures hold { (count : ℕ) → count ≤ PAGE_ENTRIES * pages_for count }
    ensures fewest { (count fewer : ℕ) → count ≤ PAGE_ENTRIES * fewer → pages_for count ≤ fewer }
    ensures place { (plan : Plan) (stream before : List (List ℕ)) (k : ℕ) → IsSound plan
        → IsPaged (ops_at plan stream before k).paging (length (ops_at plan stream before k).offsets.items) }
    ensures on_one { (plan : Plan) (stream before : List (List ℕ)) (k i : ℕ) → MOST_ENTRIES < length plan.transmitters
        → IsTrue (is_listed (ops_at plan stream before k).paging i)
        ↔ (page_of (ops_at plan stream before k).paging ≡ i / PAGE_ENTRIES) }
    ensures entry { (plan : Plan) (stream before : List (List ℕ)) (k i : ℕ) (t : Transmitter) → IsSound plan
        → slice_get plan.transmitters i ≡ Some t
        → find (λ e. e.address == t.address) (ops_at plan stream before k).offsets.items
        ≡ (if is_listed (ops_at plan stream before k).paging i then Some (entry_of t) else None) }
{}

/// `filled_groups` counts the groups of a stream that hold a placeholder. They are the groups of its feed that hold an
/// operations packet. Later packets change no count.
pub fn counted()
    ensures next { (stream : List (List ℕ)) (u : ℕ)
        → filled_groups stream (u + 1) ≡ filled_groups stream u + (if is_filled stream u then 1 else 0) }
    ensures filled { (plan : Plan) (stream : List (List ℕ)) (u : ℕ)
        → is_filled (feed plan stream) u ≡ is_filled stream u }
    ensures feed { (plan : Plan) (stream : List (List ℕ)) (u : ℕ)
        → filled_groups (feed plan stream) u ≡ filled_groups stream u }
    ensures later { (stream more : List (List ℕ)) (u : ℕ) → GROUP_PACKETS * u ≤ length stream
        → filled_groups (stream ++ more) u ≡ filled_groups stream u }
{}

/// Pages take turns. Where there are n pages, any n successive groups that hold operations packets include one that
/// lists the transmitter.
pub fn in_turn()
    ensures { (plan : Plan) (stream : List (List ℕ)) (from to i : ℕ) → from ≤ to
        → filled_groups stream from + pages_of (paging_of plan.transmitters 0) ≤ filled_groups stream to
        → i < length plan.transmitters
        → IsListedIn plan.transmitters stream from to i }
{}

/// Each packet of a feed has the sync byte of its place: a mark at each multiple of 624.
pub fn marks()
    ensures { (plan : Plan) (stream : List (List ℕ)) (k : ℕ) → k < length stream
        → length (slice_index_or stream k []) ≡ PACKET
        → sync_of (slice_index_or (feed plan stream) k []) ≡ sync_at k }
{}
