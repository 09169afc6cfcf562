//! Laws of the definitions: what a repeater sends of a feed that it hears.

ghost use Rattle.std.specs.Prelude.{◌≡◌, ◌⊎◌, ℕ, ℤ, pos, ◌<◌, ◌≤◌, ◌+ℤ◌, ◌≤ℤ◌, List, [], ◌∷◌, length, slice_range};
ghost use Rattle.dtx_plan.specs.declared.plan.Plan.{Plan};
ghost use Rattle.dtx_plan.specs.declared.transmitter.Transmitter.{Transmitter};
ghost use Rattle.dtx_adapter.specs.Feed.{feed};
ghost use Rattle.dtx_coder.specs.Stream.{a53};
ghost use Rattle.dtx_chain.specs.Damage.{to_sync, packet_behind};
ghost use Rattle.dtx_network.specs.Plans.{IsPlan, IsStream, IsListed};
ghost use Rattle.dtx_network.specs.Headline.{IsFirstListing, HasNoListing, stretch_of};
ghost use Rattle.dtx_network.specs.Orders.{presets};
ghost use Rattle.dtx_repeat.specs.Lives.{lives, repeated, repeated_log};
ghost use Rattle.dtx_gap_filler.specs.Heard.{Hears, heard_mark, heard_to};

use dtx_chain::laws::{gives_all_back, no_damage};
use dtx_network::laws::{from_a_mark, packets_of_a_feed};

/// A repeater that hears a feed gives its exciter exactly the feed's packets, marks included, in one life. They go from
/// the packet behind the first field sync on, as far as packets are received whole.
pub fn is_given_the_feed()
    ensures life { (plan : Plan) (stream : List (List ℕ)) (t : Transmitter) (delay first : ℕ) (sent got : List (List ℤ))
        → Hears plan stream t delay first sent got
        → lives got ≡ slice_range (feed plan stream) (packet_behind first) (heard_to first got) ∷ [] }
    ensures inside { (plan : Plan) (stream : List (List ℕ)) (t : Transmitter) (delay first : ℕ)
        (sent got : List (List ℤ)) → Hears plan stream t delay first sent got
        → heard_to first got ≤ length (feed plan stream) }
{
    packets_of_a_feed();
    gives_all_back();
}

/// A repeater that hears a feed, with slight damage, sends exactly the main transmitter's symbols (ATSC A/53 Part 2).
/// Its first listing is the first group received whole that begins late enough and has an operations packet that lists
/// its address. Late enough is 52 or more packets behind the first mark at or behind the packet that follows the first
/// field sync. It sends the feed's segments from the first data segment of that group to the last data segment of the
/// last group received whole, and no other. Its log has one preset line, with the moment at its offset, for each of
/// these groups that holds an operations packet, and no other line. If there is no first listing, it sends no segment
/// and logs no line.
pub fn repeats()
    ensures segments { (plan : Plan) (stream : List (List ℕ)) (t : Transmitter) (delay first k : ℕ)
        (sent got : List (List ℤ)) → Hears plan stream t delay first sent got
        → IsFirstListing t.address (feed plan stream) (heard_mark first) (heard_to first got) k
        → repeated t.address delay got ≡ stretch_of (feed plan stream) k (heard_to first got) }
    ensures lines { (plan : Plan) (stream : List (List ℕ)) (t : Transmitter) (delay first k : ℕ)
        (sent got : List (List ℤ)) → Hears plan stream t delay first sent got
        → IsFirstListing t.address (feed plan stream) (heard_mark first) (heard_to first got) k
        → repeated_log t.address delay got ≡ presets plan t.offset 0 (feed plan stream) k (heard_to first got) }
    ensures no_segments { (plan : Plan) (stream : List (List ℕ)) (t : Transmitter) (delay first : ℕ)
        (sent got : List (List ℤ)) → Hears plan stream t delay first sent got
        → HasNoListing t.address (feed plan stream) (heard_mark first) (heard_to first got)
        → repeated t.address delay got ≡ [] }
    ensures no_lines { (plan : Plan) (stream : List (List ℕ)) (t : Transmitter) (delay first : ℕ)
        (sent got : List (List ℤ)) → Hears plan stream t delay first sent got
        → HasNoListing t.address (feed plan stream) (heard_mark first) (heard_to first got)
        → repeated_log t.address delay got ≡ [] }
{
    packets_of_a_feed();
    is_given_the_feed();
    from_a_mark();
}

/// Segments as they were sent meet `Hears`. Take any successive segments of a feed's own that hold a field sync,
/// undamaged. A repeater that is in time, and whose address the plan lists, hears the feed in them.
pub fn heard_as_sent()
    ensures { (plan : Plan) (stream : List (List ℕ)) (t : Transmitter) (delay first end : ℕ) → IsPlan plan
        → IsStream stream → IsListed plan t → pos delay ≤ℤ (pos plan.max_delay +ℤ t.offset)
        → to_sync first < length (slice_range (a53 (feed plan stream)) first end)
        → Hears plan stream t delay first (slice_range (a53 (feed plan stream)) first end)
        (slice_range (a53 (feed plan stream)) first end) }
{
    packets_of_a_feed();
    no_damage();
}

/// A feed has a first listing of an address, or it has none.
pub fn listed_or_not()
    ensures { (address : ℕ) (feed : List (List ℕ)) (z end : ℕ)
        → ((k : ℕ) × IsFirstListing address feed z end k) ⊎ HasNoListing address feed z end }
{}
