//! Laws of the definitions, up to the headline of a network.

ghost use Rattle.std.specs.Prelude.{◌≡◌, ◌≢◌, ℕ, ℤ, ◌+◌, ◌-◌, ◌*◌, ◌/◌, ◌%◌, ◌<◌, ◌≤◌, ◌==◌, ◌&&◌, ◌-ℤ◌, true, false};
ghost use Rattle.std.specs.Prelude.{Some, None, if◌then◌else◌, Ok, List, [], ◌∷◌, ◌++◌, length, map, take, slice_get};
ghost use Rattle.std.specs.Prelude.{drop, slice_index, slice_index_or, slice_range, slice_set};
ghost use Rattle.std.specs.List.{Contains};
ghost use Rattle.dtx_ops.specs.declared.fields.Ops.{Ops};
ghost use Rattle.dtx_plan.specs.declared.plan.Plan.{Plan};
ghost use Rattle.dtx_plan.specs.Plan.{plan_of};
ghost use Rattle.dtx_plan.specs.declared.transmitter.Transmitter.{Transmitter};
ghost use Rattle.dtx_adapter.specs.Feed.{entry_of, is_listed, paging_at, feed};
ghost use Rattle.dtx_exciter.specs.Order.{counting_order};
ghost use Rattle.dtx_exciter.specs.Packets as exciter;
ghost use Rattle.dtx_exciter.specs.Packets.{anchor_of, readings, syncs, bodies, AreSentAlike};
ghost use Rattle.dtx_exciter.specs.declared.answers.Told.TheVariants.{Muted};
ghost use Rattle.dtx_exciter.specs.declared.answers.Why.TheVariants.{Cadence};
ghost use Rattle.dtx_exciter.specs.Pages as pages;
ghost use Rattle.dtx_exciter.specs.Told.{was_lost};
ghost use Rattle.dtx_exciter.specs.Lockstep.{IsFeed, stretch, locked_from};
ghost use Rattle.dtx_exciter.specs.Emission.{emission, last_segments};
ghost use Rattle.dtx_exciter.specs.Log.{Line, preset, life_lines, log, emission_over};
ghost use Rattle.dtx_exciter.specs.Stretch.{stretch_lines, IsApart};
ghost use Rattle.dtx_watch.specs.Sound.{IsSoundFeed, IsCalmAt};
ghost use Rattle.dtx_network.specs.Plans.{IsPlan, IsStream, IsListed, IsInTime};
ghost use Rattle.dtx_network.specs.Orders.{has_order, has_listing, pages_in, order_of, IsOrder, orders, moment_at};
ghost use Rattle.dtx_network.specs.Orders.{preset_at, presets};
ghost use Rattle.dtx_chain.specs.Damage.{ArePackets};
ghost use Rattle.dtx_plan.specs.declared.event.Event.{Event};
ghost use Rattle.dtx_network.specs.GivesBack.{BeginsField, GivesBack, GivesAllBack, CanBeGivenBack, IsReceivedAlone};
ghost use Rattle.dtx_network.specs.GivesBack.{to_field};
ghost use Rattle.dtx_outer.specs.Inner.{codeword_byte_place, IsComplete};
ghost use Rattle.dtx_receiver.specs.Bytes.{bytes_in};
ghost use Rattle.dtx_receiver.specs.Intervals.{segments_in};
ghost use Rattle.dtx_galois.specs.Field.{AreBytes};
ghost use Rattle.dtx_coder.specs.Stream.{spread};
ghost use Rattle.dtx_cadence.specs.Anchor.{has_mark};
ghost use Rattle.dtx_packets.specs.Packets.{sync_of};
ghost use Rattle.dtx_plan.specs.declared.event.Event.TheVariants.{Send};
ghost use Rattle.dtx_plan.specs.Sound.{IsEvent};
ghost use Rattle.dtx_network.specs.Network.{AreOfOthers, Joined, Headline, steps_under};
ghost use Rattle.dtx_net.specs.Lives.{sent_segments, last_life};
ghost use Rattle.dtx_network.specs.Headline.{IsFed, IsFirstListing, stretch_of, last_packet, segment_of, line_end};
ghost use Rattle.dtx_network.specs.Headline.{HasNoListing, IsFedAnew, Around, around, Emits};

use dtx_exciter::laws::sent_packets_give;

/// Every plan that is read from a file's bytes is one that a network takes.
pub fn plans_that_are_read()
    ensures { (bytes : List ℕ) (plan : Plan) → plan_of bytes ≡ Ok plan → IsPlan plan }
{}

/// The exciter of each listed transmitter that is in time locks to the feed of the plan. The feed's marks stand at each
/// 624th packet. The feed's orders set the states of its own coders, and all have one number of pages. Orders of one
/// page list the same transmitters. Each order that lists the transmitter has its offset and serves it.
pub fn feed_locks()
    ensures { (plan : Plan) (stream : List (List ℕ)) (t : Transmitter) → IsPlan plan → IsStream stream → IsListed plan t
        → IsInTime plan t → IsFeed t.address t.delay t.offset (feed plan stream) }
{}

/// A group of a feed has a counting order exactly if it begins 52 or more packets behind the feed's start and holds an
/// operations packet. It holds one exactly if the stream's group holds a placeholder. The order is the fields of the
/// group's first operations packet. It has the entry of a transmitter of the plan, with the transmitter's own offset,
/// exactly if the transmitter stands on the group's page.
pub fn orders_of_a_feed()
    ensures exact { (plan : Plan) (stream : List (List ℕ)) (g : ℕ) → IsPlan plan → IsStream stream
        → counting_order (readings (feed plan stream)) g ≡ order_of plan stream g }
    ensures some { (plan : Plan) (stream : List (List ℕ)) (g : ℕ) → IsPlan plan → IsStream stream → 52 ≤ g → g % 4 ≡ 0
        → has_order (feed plan stream) g ≡ true
        → (ops : Ops) × (counting_order (readings (feed plan stream)) g ≡ Some ops) }
    ensures none { (plan : Plan) (stream : List (List ℕ)) (g : ℕ) → IsPlan plan → IsStream stream
        → has_order (feed plan stream) g ≡ false
        → counting_order (readings (feed plan stream)) g ≡ None }
    ensures placeholders { (plan : Plan) (stream : List (List ℕ)) (g : ℕ) → IsPlan plan → IsStream stream
        → has_order (feed plan stream) g ≡ has_order stream g }
    ensures says { (plan : Plan) (stream : List (List ℕ)) (g : ℕ) (ops : Ops) → IsPlan plan → IsStream stream
        → counting_order (readings (feed plan stream)) g ≡ Some ops
        → IsOrder plan stream g ops }
    ensures entry { (plan : Plan) (stream : List (List ℕ)) (t : Transmitter) (who g : ℕ) (ops : Ops) → IsPlan plan
        → slice_get plan.transmitters who ≡ Some t → IsOrder plan stream g ops
        → pages.entry_of t.address ops
        ≡ (if is_listed (paging_at plan stream (g / 4)) who then Some (entry_of t) else None) }
{}

/// A group of a feed lists a transmitter of the plan exactly if it holds an operations packet and its page is the
/// transmitter's. Up to 35 transmitters take one page. Then a group lists each of them exactly if it holds an
/// operations packet.
pub fn listings_of_a_feed()
    ensures exact { (plan : Plan) (stream : List (List ℕ)) (t : Transmitter) (who g : ℕ) → IsPlan plan
        → IsStream stream → slice_get plan.transmitters who ≡ Some t → g % 4 ≡ 0
        → has_listing t.address (feed plan stream) g
        ≡ (has_order (feed plan stream) g && is_listed (paging_at plan stream (g / 4)) who) }
    ensures one_page { (plan : Plan) (stream : List (List ℕ)) (t : Transmitter) (g : ℕ) → IsPlan plan
        → IsStream stream → IsListed plan t → length plan.transmitters ≤ 35
        → has_listing t.address (feed plan stream) g ≡ has_order (feed plan stream) g }
{}

/// Take groups of a feed in a row that hold operations packets, as many as the plan has pages. One of them lists the
/// transmitter. So a listing comes within one cycle of pages.
pub fn listing_in_turn()
    ensures { (plan : Plan) (stream : List (List ℕ)) (t : Transmitter) (k end : ℕ) → IsPlan plan → IsStream stream
        → IsListed plan t → pages_in plan ≤ length (orders (feed plan stream) k end)
        → (g : ℕ) × Contains (orders (feed plan stream) k end) g
        × (has_listing t.address (feed plan stream) g ≡ true) }
{}

/// The lines that an exciter logs in a stretch of a feed are the presets of the stretch's orders, and no other. There
/// is one for each group that holds an operations packet, whether or not it lists the transmitter.
pub fn lines_of_a_feed()
    ensures { (plan : Plan) (stream : List (List ℕ)) (offset : ℤ) (s k end : ℕ) → IsPlan plan → IsStream stream
        → 52 ≤ k → stretch_lines offset s (feed plan stream) k end ≡ presets plan offset s (feed plan stream) k end }
{}

/// The stretch as a slice of all of the feed's own segments is what the exciter gives of the packets up to its end.
pub fn stretch_of_a_feed()
    ensures { (feed : List (List ℕ)) (k end : ℕ) → k + 4 ≤ end → end ≤ length feed
        → stretch_of feed k end ≡ stretch feed k end }
{}

/// This holds for every stream and all lives of a listed transmitter that is in time. Let one life be given the feed
/// unchanged from a mark on, with any packets before and behind. Then the transmitter emits exactly the feed's own
/// segments from its first listing on. That is the first one that begins 52 or more packets behind the mark from which
/// it is locked to the feed. In front of these segments stands what its earlier lives send and what this one sends
/// before. Behind them stands what this one sends later and what its later lives send. The same holds of its lines.
pub fn emits()
    ensures { (plan : Plan) (stream : List (List ℕ)) (t : Transmitter) (xs ys : List (List (List ℕ)))
        (life : List (List ℕ)) (mark n k : ℕ)
        → IsPlan plan → IsStream stream → IsListed plan t → IsInTime plan t
        → (fed : IsFed (feed plan stream) life mark n)
        → IsFirstListing t.address (feed plan stream) (locked_from fed.earlier mark) (mark + n) k
        → Emits plan t (feed plan stream) mark k (mark + n) (around xs fed ys)
        (emission_over t.address t.delay (xs ++ life ∷ ys)) (log t.address t.delay 0 (xs ++ life ∷ ys)) }
{}

/// An exciter is given a feed from its first packet on. It sends the feed's own segments (ATSC A/53 Part 2) from its
/// first listing on that begins at packet 52 or later, and nothing before. Its whole log is the presets of the orders
/// from there on. As long as it is given no whole group that begins at packet 52 or later and lists it, it sends and
/// logs nothing. This holds whatever other pages it is told, since its own is still to come.
pub fn from_its_start()
    ensures segments { (plan : Plan) (stream : List (List ℕ)) (t : Transmitter) (n k : ℕ) → IsPlan plan
        → IsStream stream → IsListed plan t → IsInTime plan t
        → n ≤ length (feed plan stream) → IsFirstListing t.address (feed plan stream) 0 n k
        → emission t.address t.delay (take n (feed plan stream)) ≡ stretch_of (feed plan stream) k n }
    ensures lines { (plan : Plan) (stream : List (List ℕ)) (t : Transmitter) (n k : ℕ) → IsPlan plan → IsStream stream
        → IsListed plan t → IsInTime plan t
        → n ≤ length (feed plan stream) → IsFirstListing t.address (feed plan stream) 0 n k
        → life_lines t.address t.delay 0 (take n (feed plan stream)) ≡ presets plan t.offset 0 (feed plan stream) k n }
    ensures no_segments { (plan : Plan) (stream : List (List ℕ)) (t : Transmitter) (n : ℕ) → IsPlan plan
        → IsStream stream → IsListed plan t → IsInTime plan t
        → n ≤ length (feed plan stream) → ((g : ℕ) → g % 4 ≡ 0 → 52 ≤ g → g + 4 ≤ n
        → has_listing t.address (feed plan stream) g ≡ false)
        → emission t.address t.delay (take n (feed plan stream)) ≡ [] }
    ensures no_lines { (plan : Plan) (stream : List (List ℕ)) (t : Transmitter) (n : ℕ) → IsPlan plan → IsStream stream
        → IsListed plan t → IsInTime plan t
        → n ≤ length (feed plan stream) → ((g : ℕ) → g % 4 ≡ 0 → 52 ≤ g → g + 4 ≤ n
        → has_listing t.address (feed plan stream) g ≡ false)
        → life_lines t.address t.delay 0 (take n (feed plan stream)) ≡ [] }
{}

/// An exciter is given a feed from one of its marks on, and before that nothing or packets without any mark. It sends
/// the feed's own segments (ATSC A/53 Part 2) from its first listing on that begins 52 or more packets behind the mark,
/// and nothing before. Its whole log is the presets of the orders from there on. As long as it is given no whole group
/// that begins 52 or more packets behind the mark and lists it, it sends and logs nothing. Its delay may be another one
/// than the plan's, as long as it is in time.
pub fn from_a_mark()
    ensures segments { (plan : Plan) (stream : List (List ℕ)) (t : Transmitter) (delay : ℕ) (earlier : List (List ℕ))
        (mark n k : ℕ) → IsFedAnew plan stream t delay earlier mark n
        → IsFirstListing t.address (feed plan stream) mark (mark + n) k
        → emission t.address delay (earlier ++ slice_range (feed plan stream) mark (mark + n))
        ≡ stretch_of (feed plan stream) k (mark + n) }
    ensures lines { (plan : Plan) (stream : List (List ℕ)) (t : Transmitter) (delay : ℕ) (earlier : List (List ℕ))
        (mark n k : ℕ) → IsFedAnew plan stream t delay earlier mark n
        → IsFirstListing t.address (feed plan stream) mark (mark + n) k
        → life_lines t.address delay 0 (earlier ++ slice_range (feed plan stream) mark (mark + n))
        ≡ presets plan t.offset 0 (feed plan stream) k (mark + n) }
    ensures no_segments { (plan : Plan) (stream : List (List ℕ)) (t : Transmitter) (delay : ℕ) (earlier : List (List ℕ))
        (mark n : ℕ) → IsFedAnew plan stream t delay earlier mark n
        → HasNoListing t.address (feed plan stream) mark (mark + n)
        → emission t.address delay (earlier ++ slice_range (feed plan stream) mark (mark + n)) ≡ [] }
    ensures no_lines { (plan : Plan) (stream : List (List ℕ)) (t : Transmitter) (delay : ℕ) (earlier : List (List ℕ))
        (mark n : ℕ) → IsFedAnew plan stream t delay earlier mark n
        → HasNoListing t.address (feed plan stream) mark (mark + n)
        → life_lines t.address delay 0 (earlier ++ slice_range (feed plan stream) mark (mark + n)) ≡ [] }
{}

/// The first preset of a stretch is that of its first group, and names the stretch's first segment. Each line of the
/// log that ends behind the stretch's beginning and begins before its end is one of the stretch's presets. So no mute
/// is logged between its beginning and its end.
pub fn lines_of_a_stretch()
    ensures first { (plan : Plan) (offset : ℤ) (s address : ℕ) (feed : List (List ℕ)) (z end k : ℕ)
        → IsFirstListing address feed z end k
        → presets plan offset s feed k end
        ≡ preset s (k / 624) (k % 624) (moment_at plan offset k).tick (moment_at plan offset k).grain ∷ map
        (preset_at plan offset s k) (orders feed (k + 1) end) }
    ensures no_other { (plan : Plan) (t : Transmitter) (feed : List (List ℕ)) (mark k end : ℕ) (a : Around)
        (segments : List (List ℤ)) (lines : List Line) (line : Line)
        → (e : Emits plan t feed mark k end a segments lines) → Contains lines line → length e.before < line_end line
        → segment_of line < length e.before + length (stretch_of feed k end)
        → Contains (presets plan t.offset (length e.before) feed k end) line }
{}

/// At any two transmitters the presets of one group are of one packet of one frame, wherever their stretches begin.
/// Their moments differ by the offsets' difference, in ticks of 1539 grains, plus some whole seconds.
pub fn apart()
    ensures { (plan : Plan) (t u : Transmitter) (s r k l g : ℕ)
        → IsApart (t.offset -ℤ u.offset) (preset_at plan t.offset s k g) (preset_at plan u.offset r l g) }
{}

/// The packets of a feed have 188 bytes each, as those of its stream have.
pub fn packets_of_a_feed()
    ensures { (plan : Plan) (stream : List (List ℕ)) → IsPlan plan → IsStream stream → ArePackets (feed plan stream) }
{}

/// Let any segments be received, with the stretch of a feed at segment s of them. A run that begins at a field sync of
/// the stretch gives back each packet for which three things hold. Its 207 bytes are all among the run's, they lie in
/// segments of the stretch, and its word has at most ten wrong bytes. The packet is good, has 0x47 as its sync byte,
/// and stands behind the packets of the runs before it.
pub fn gives_back()
    ensures { (feed : List (List ℕ)) (k end s : ℕ) (got : List (List ℤ)) → ArePackets feed → end ≤ length feed
        → GivesBack feed k end s got }
{}

/// The stretch alone, received with slight damage, is one run from its first field sync on. What is received is exactly
/// the feed's packets from there on whose bytes are all there, in order, none flagged.
pub fn gives_all_back()
    ensures { (feed : List (List ℕ)) (k end : ℕ) (got : List (List ℤ)) → ArePackets feed → end ≤ length feed
        → GivesAllBack feed k end got }
{}

/// The headline, for every packet stream and schedule. An exciter is given, from any earlier state, the adapter's feed
/// unchanged through three cadence marks and on. From its first listing whose group starts 52 or more packets later, it
/// emits exactly the symbols of that feed (ATSC A/53 Part 2). It does so at moments that differ between transmitters
/// only by the signalled offsets. Symbols with at most ten wrong bytes per codeword give the feed's packets back.
pub fn headline()
    ensures { (plan : Plan) (stream : List (List ℕ)) (events : List Event) → IsPlan plan → IsStream stream
        → Headline plan stream events }
{}

/// A transmitter can meet the headline's conditions at every mark of the feed that has a listing behind it, whatever
/// happens before and after. One event, which a plan may hold, gives a listed transmitter in time packets of the feed
/// from a mark on. With this event the transmitter joins the feed there, if a whole group among these packets lists it
/// and begins late enough. The group has to begin 52 or more packets behind the mark from which the transmitter is
/// locked. What its life was given before decides which mark that is. Its first listing is that group's or an earlier
/// one's.
///
/// It is locked from the mark on if it was given nothing before. In any state it is locked from the third mark on at
/// the latest, which is 1,248 packets later. A group that lists it and begins late enough exists if the stream has
/// placeholders in as many late enough groups as the plan has pages.
pub fn joined_is_met()
    ensures met { (plan : Plan) (stream : List (List ℕ)) (t : Transmitter) (who mark n g : ℕ)
        (before after : List Event)
        → IsPlan plan → IsStream stream → slice_get plan.transmitters who ≡ Some t → IsInTime plan t
        → mark % 624 ≡ 0 → mark + n ≤ length stream
        → g % 4 ≡ 0 → locked_from (last_life who (steps_under plan stream before)) mark + 52 ≤ g → g + 4 ≤ mark + n
        → has_listing t.address (feed plan stream) g ≡ true
        → (x : Joined plan stream (before ++ Send t.address mark n ∷ after)) × (x.t ≡ t) × (x.who ≡ who)
        × (x.mark ≡ mark) × (x.count ≡ n) × (x.k ≤ g)
        × (x.fed.earlier ≡ last_life who (steps_under plan stream before)) }
    ensures met_first { (plan : Plan) (stream : List (List ℕ)) (t : Transmitter) (who mark n g : ℕ)
        (before after : List Event)
        → IsPlan plan → IsStream stream → slice_get plan.transmitters who ≡ Some t → IsInTime plan t
        → AreOfOthers t before → mark % 624 ≡ 0 → mark + n ≤ length stream
        → g % 4 ≡ 0 → mark + 52 ≤ g → g + 4 ≤ mark + n → has_listing t.address (feed plan stream) g ≡ true
        → (x : Joined plan stream (before ++ Send t.address mark n ∷ after)) × (x.t ≡ t) × (x.who ≡ who)
        × (x.mark ≡ mark) × (x.count ≡ n) × (x.k ≤ g) × (x.fed.earlier ≡ []) }
    ensures met_in_any_state { (plan : Plan) (stream : List (List ℕ)) (t : Transmitter) (who mark n g : ℕ)
        (before after : List Event)
        → IsPlan plan → IsStream stream → slice_get plan.transmitters who ≡ Some t → IsInTime plan t
        → mark % 624 ≡ 0 → mark + n ≤ length stream
        → g % 4 ≡ 0 → mark + 1300 ≤ g → g + 4 ≤ mark + n → has_listing t.address (feed plan stream) g ≡ true
        → (x : Joined plan stream (before ++ Send t.address mark n ∷ after)) × (x.t ≡ t) × (x.who ≡ who)
        × (x.mark ≡ mark) × (x.count ≡ n) × (x.k ≤ g) }
    ensures in_turn { (plan : Plan) (stream : List (List ℕ)) (t : Transmitter) (who mark n : ℕ)
        (before after : List Event)
        → IsPlan plan → IsStream stream → slice_get plan.transmitters who ≡ Some t → IsInTime plan t
        → mark % 624 ≡ 0 → mark + n ≤ length stream
        → pages_in plan
        ≤ length (orders stream (locked_from (last_life who (steps_under plan stream before)) mark + 52) (mark + n))
        → (x : Joined plan stream (before ++ Send t.address mark n ∷ after)) × (x.t ≡ t) × (x.who ≡ who)
        × (x.mark ≡ mark) × (x.count ≡ n) }
    ensures in_turn_in_any_state { (plan : Plan) (stream : List (List ℕ)) (t : Transmitter) (who mark n : ℕ)
        (before after : List Event)
        → IsPlan plan → IsStream stream → slice_get plan.transmitters who ≡ Some t → IsInTime plan t
        → mark % 624 ≡ 0 → mark + n ≤ length stream → pages_in plan ≤ length (orders stream (mark + 1300) (mark + n))
        → (x : Joined plan stream (before ++ Send t.address mark n ∷ after)) × (x.t ≡ t) × (x.who ≡ who)
        × (x.mark ≡ mark) × (x.count ≡ n) }
    ensures may_be { (plan : Plan) (stream : List (List ℕ)) (t : Transmitter) (who mark n : ℕ) → IsStream stream
        → slice_get plan.transmitters who ≡ Some t → 1 ≤ n → mark + n ≤ length stream
        → IsEvent plan.transmitters (Send t.address mark n) }
{}

/// A transmitter that is given the feed from packet 0 on, and nothing else, sends the stretch alone, whatever is done
/// with others meanwhile. Its symbol file holds the feed's own segments from its first listing on, and no other.
pub fn sends_the_stretch_alone()
    ensures { (plan : Plan) (stream : List (List ℕ)) (t : Transmitter) (who n k : ℕ) (before after : List Event)
        → IsPlan plan → IsStream stream → slice_get plan.transmitters who ≡ Some t → IsInTime plan t
        → n ≤ length stream → IsFirstListing t.address (feed plan stream) 0 n k → AreOfOthers t before
        → AreOfOthers t after
        → sent_segments t who (steps_under plan stream (before ++ Send t.address 0 n ∷ after))
        ≡ stretch_of (feed plan stream) k n }
{}

/// The stretch alone, received as it was sent, is received with slight damage. This holds from every packet on. So
/// `gives_all_back` can be used.
pub fn stretch_is_slight()
    ensures { (feed : List (List ℕ)) (k end : ℕ) → ArePackets feed
        → IsReceivedAlone feed k end (stretch_of feed k end) }
{}

/// A symbol file as a transmitter leaves it meets what `gives_back` asks of a packet. Take the stretch as it was sent,
/// with any segments before and behind it, and a run that begins at a field sync of the stretch. Each packet of the run
/// can be given back whose bytes are all among the run's and lie in segments of the stretch.
pub fn stretch_is_readable()
    ensures { (feed : List (List ℕ)) (k end f n j : ℕ) (before after : List (List ℤ)) → ArePackets feed
        → end ≤ length feed → BeginsField k end f
        → IsComplete 207 52 4 (length (bytes_in (segments_in (before ++ (stretch_of feed k end ++ after))
        (length before + to_field k f, n)))) j
        → ((i : ℕ) → i < 207 → f + 4 * (codeword_byte_place 52 4 (207 * j + i) / 828) + 3 ≤ last_packet end)
        → CanBeGivenBack feed end f (segments_in (before ++ (stretch_of feed k end ++ after))
        (length before + to_field k f, n)) j }
{}

/// A byte of the interleaver is sent in packet 51 behind a mark and comes from before the mark. Whatever the last
/// packet before the mark is, some other packet in its place changes byte 50 of that packet 51. So 51 packets are too
/// few for the interleaver to hold the feed's bytes alone. (The law is about the interleaver's bytes, and not about
/// what an exciter answers then.)
pub fn packet_51_sends_a_byte_from_before()
    ensures { (front packets : List (List ℕ)) (p : List ℕ) → (length front + 1) % 624 ≡ 0 → length p ≡ 188
        → AreBytes p → 52 ≤ length packets
        → (q : List ℕ) × (length q ≡ 188) × AreBytes q
        × (slice_index (spread (front ++ q ∷ packets)) (207 * (length front + 52) + 50)
        ≢ slice_index (spread (front ++ p ∷ packets)) (207 * (length front + 52) + 50)) }
{}

/// The answer to a packet with which the anchor is lost is `Muted Cadence`, and the packet gives no segment. The anchor
/// is lost with the second of two marks that are due in a row and missing.
pub fn a_lost_anchor_mutes()
    ensures told { (address delay : ℕ) (packets : List (List ℕ)) (packet : List ℕ)
        → was_lost (anchor_of packets) (anchor_of (packets ++ packet ∷ [])) ≡ true
        → exciter.last_answer address delay (packets ++ packet ∷ []) ≡ Muted Cadence }
    ensures nothing { (address delay : ℕ) (packets : List (List ℕ)) (packet : List ℕ)
        → was_lost (anchor_of packets) (anchor_of (packets ++ packet ∷ [])) ≡ true
        → last_segments address delay (packets ++ packet ∷ []) ≡ [] }
    ensures two_missing { (packets : List (List ℕ)) (packet : List ℕ) (j : ℕ) → anchor_of packets ≡ Some j
        → (length packets - j) % 624 ≡ 0 → (sync_of packet == 0xB8) ≡ false
        → has_mark (syncs packets) (length packets - 624) ≡ false
        → was_lost (anchor_of packets) (anchor_of (packets ++ packet ∷ [])) ≡ true }
{
    sent_packets_give();
}

/// A lock out of step with a feed is lost before the third mark of it that is given in a row. The answer to one of the
/// 1,248 packets before that mark is `Muted Cadence`.
pub fn a_lock_out_of_step_is_lost()
    ensures { (address delay : ℕ) (offset : ℤ) (feed earlier : List (List ℕ)) (mark j : ℕ)
        → IsFeed address delay offset feed → mark % 624 ≡ 0 → mark + 1248 ≤ length feed → anchor_of earlier ≡ Some j
        → ((length earlier - j) % 624 == 0) ≡ false
        → (m : ℕ) × (m < 1248)
        × (exciter.last_answer address delay (earlier ++ slice_range feed mark (mark + m + 1)) ≡ Muted Cadence) }
{}

/// One missing mark changes nothing. An exciter is given a feed from a mark on, but one packet of it has another sync
/// byte. This packet stands 624 or more packets behind the mark from which the exciter is locked. Then the exciter
/// answers and sends what it would have, since the packets are sent alike.
pub fn one_mark_may_be_missing()
    ensures { (address delay : ℕ) (offset : ℤ) (feed earlier : List (List ℕ)) (mark n i : ℕ) (packet : List ℕ)
        → IsFeed address delay offset feed → mark % 624 ≡ 0 → mark + n ≤ length feed → i % 624 ≡ 0
        → locked_from earlier mark + 624 ≤ i → i < mark + n → drop 1 packet ≡ drop 1 (slice_index_or feed i [])
        → AreSentAlike (earlier ++ slice_range feed mark (mark + n))
        (earlier ++ slice_range (slice_set feed i packet) mark (mark + n)) }
{}

/// Any number of stray marks change nothing under a lock. An exciter is given the packets of a feed from a mark on with
/// other sync bytes. Up to the mark from which it is locked, they have the feed's own marks and no other. Behind it
/// they have each of the feed's own marks. Then it answers and sends what it would have.
pub fn stray_marks_move_nothing()
    ensures { (address delay : ℕ) (offset : ℤ) (feed earlier other : List (List ℕ)) (mark n : ℕ)
        → IsFeed address delay offset feed → mark % 624 ≡ 0 → mark + n ≤ length feed
        → locked_from earlier mark < mark + n → bodies other ≡ bodies (slice_range feed mark (mark + n))
        → ((i : ℕ) → mark + i ≤ locked_from earlier mark → has_mark (syncs other) i ≡ (i % 624 == 0))
        → ((i : ℕ) → i < n → i % 624 ≡ 0 → has_mark (syncs other) i ≡ true)
        → AreSentAlike (earlier ++ slice_range feed mark (mark + n)) (earlier ++ other) }
{}

/// The feed of a plan is sound. Each operations packet has its place, the states that the feed's own coders have before
/// its group, and the stamp and the number of its frame. So, watched from its first packet or from any of its marks on,
/// it is calm. That packet is an anchor, each operations packet stands at its place, no states slip and no stamp jumps.
/// There are no other notes.
pub fn a_feed_is_sound()
    ensures sound { (plan : Plan) (stream : List (List ℕ)) → IsPlan plan → IsStream stream
        → IsSoundFeed plan.start plan.max_delay (feed plan stream) }
    ensures calm { (plan : Plan) (stream : List (List ℕ)) (mark k : ℕ) → IsPlan plan → IsStream stream
        → mark % 624 ≡ 0 → mark < length (feed plan stream) → k < length (drop mark (feed plan stream))
        → IsCalmAt (drop mark (feed plan stream)) k }
{}
