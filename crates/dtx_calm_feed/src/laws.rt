//! Laws of the definitions: what a watcher's notes and a calm text mean for a feed.

ghost use Rattle.std.specs.Prelude.{◌≡◌, ◌⊎◌, ℕ, ℤ, ◌+ℤ◌, ◌+◌, ◌-◌, ◌/◌, ◌%◌, ◌<◌, ◌≤◌, Bool, Some, List, [], drop};
ghost use Rattle.std.specs.Prelude.{length, slice_range, take};
ghost use Rattle.std.specs.List.{AllByRecursion};
ghost use Rattle.dtx_clock.specs.Clock.{DifferBy, grains_of};
ghost use Rattle.dtx_coder.specs.Along.{RunsAlong};
ghost use Rattle.dtx_coder.specs.Groups.{Coding};
ghost use Rattle.dtx_coder.specs.Stream.{four_segments, levels, states};
ghost use Rattle.dtx_ops.specs.declared.fields.Ops.{Ops};
ghost use Rattle.dtx_exciter.specs.Emission.{last_segments, segments_since};
ghost use Rattle.dtx_exciter.specs.Order.{Order, counting_order, ordered_at};
ghost use Rattle.dtx_exciter.specs.Packets.{anchor_of, readings};
ghost use Rattle.dtx_watch.specs.declared.notes.StatesNote.TheVariants as states_are;
ghost use Rattle.dtx_watch.specs.Clock.{frames_between};
ghost use Rattle.dtx_watch.specs.Sound.{IsSoundFeed};
ghost use Rattle.dtx_watch.specs.Watch.{watch};
ghost use Rattle.dtx_watch.specs.WatchText.{watch_text};
ghost use Rattle.dtx_calm_feed.specs.Calm.{IsCalmFeed, IsCalmFrom, IsCalmText, IsBelowTick, air_between};
ghost use Rattle.dtx_calm_feed.specs.Own.{IsFirstOrder, IsLockedTo, IsMarkOf, data_of, own_data, own_segments};
ghost use Rattle.dtx_calm_feed.specs.Said.{AreSaid, Follows, IsLatestOrder, IsSaid, latest_before};

/// Each note on any packets is true. A line `ops` is about an operations packet at its place. It says `right` of the
/// states exactly if the packet's group counts and they are those that the twelve coders have before the group. These
/// coders began with the states of the latest earlier order under this anchor. It says `slip` exactly if the group
/// counts, there is an earlier order, and the states are others. It says `right` of the clock exactly if two things
/// hold. The stamp is later than that of the latest operations packet before it by the length of all frames between the
/// two, rounded once, down or up. The maximum delay is the same.
pub fn each_line_is_so()
    ensures { (packets : List (List ℕ)) → AllByRecursion (IsSaid packets) (watch packets) }
{}

/// Take a coder that was given the groups from the anchor on, whatever it held before the anchor. It was preset with
/// the states of the latest earlier order before that order's group, and then no more. If a note says that states are
/// right, the coder holds them before the group at hand.
pub fn right_states_are_held()
    ensures { (packets : List (List ℕ)) (i : ℕ) (order : Order) (told : List ℕ) (coder : Coding)
        → AreSaid packets i told states_are.Right → IsLatestOrder packets i order
        → RunsAlong (take i packets) (order.place / 4) order.ops.states coder → coder.states ≡ told }
{}

/// If a text is calm, its packets are calm from their anchor on. The packets from there on are a calm feed.
pub fn calm_texts()
    ensures from { (packets : List (List ℕ)) (anchor : ℕ) → IsCalmText (watch_text (watch packets))
        → anchor_of packets ≡ Some anchor → IsCalmFrom packets anchor }
    ensures feed { (packets : List (List ℕ)) (anchor : ℕ) → IsCalmFrom packets anchor
        → IsCalmFeed (drop anchor packets) }
{}

/// A sound feed, from any of its marks on, is a calm feed. So the laws of calm feeds hold of it.
pub fn sound_feeds_are_calm_feeds()
    ensures { (start most mark : ℕ) (feed : List (List ℕ)) → IsSoundFeed start most feed → mark % 624 ≡ 0
        → mark < length feed → IsCalmFeed (drop mark feed) }
{}

/// An exciter in a new life is given a calm feed from any mark of it on that stands where one is due. It is locked to
/// that mark, as long as it is given the feed.
pub fn locked_at_any_mark()
    ensures { (feed : List (List ℕ)) (m n : ℕ) → IsCalmFeed feed → IsMarkOf feed m → m < n → n ≤ length feed
        → IsLockedTo feed (slice_range feed m n) n }
{}

/// An exciter is locked to a calm feed, whatever its address and its delay and whatever it was given before. For each
/// group it gives nothing, or the feed's own segments of the group. The coders of these segments begin with the states
/// of the feed's first order, and nothing presets them later. So later orders, at which the exciter presets its own
/// coders, change nothing that it sends.
pub fn each_sends_its_own()
    ensures segments { (address delay : ℕ) (feed life : List (List ℕ)) (n : ℕ) → IsCalmFeed feed
        → IsLockedTo feed life n → (last_segments address delay life ≡ [])
        ⊎ ((goes_on : Bool) × (last_segments address delay life ≡ own_segments goes_on feed (n - 4))) }
    ensures from_the_first { (feed : List (List ℕ)) (i : ℕ) (first : Order) → IsFirstOrder feed first → i % 4 ≡ 0
        → first.place ≤ i → own_data feed i ≡ segments_since (first.place / 4) first.ops.states feed (i / 4) }
{}

/// Two exciters of any addresses and delays are locked to a calm feed, at any two marks. If both give the same number
/// of segments of a group, they give the same segments. If both give segments of a group, and only one gives a field
/// sync in front, the data segments are the same. That one sent the group before.
pub fn all_send_the_same()
    ensures segments { (a b delay_a delay_b : ℕ) (feed life_a life_b : List (List ℕ)) (n : ℕ) → IsCalmFeed feed
        → IsLockedTo feed life_a n → IsLockedTo feed life_b n
        → length (last_segments a delay_a life_a) ≡ length (last_segments b delay_b life_b)
        → last_segments a delay_a life_a ≡ last_segments b delay_b life_b }
    ensures groups { (a b delay_a delay_b : ℕ) (feed life_a life_b : List (List ℕ)) (n : ℕ) → IsCalmFeed feed
        → IsLockedTo feed life_a n → IsLockedTo feed life_b n → 0 < length (last_segments a delay_a life_a)
        → 0 < length (last_segments b delay_b life_b)
        → data_of (last_segments a delay_a life_a) ≡ data_of (last_segments b delay_b life_b) }
{}

/// Let a calm feed stand behind some whole frames of a stream, and let its first order have the states that the
/// stream's coders have there. Then each order of a whole group has the states that the stream's coders have before
/// that group. The feed's own data segments are those of the stream (ATSC A/53 Part 2).
pub fn calm_feeds_are_as_coded()
    ensures states { (packets : List (List ℕ)) (m g : ℕ) (first : Order) (ops : Ops) → IsCalmFeed (drop m packets)
        → m % 624 ≡ 0 → IsFirstOrder (drop m packets) first
        → first.ops.states ≡ states (take (m + first.place) packets)
        → counting_order (readings (drop m packets)) g ≡ Some ops → m + g + 4 ≤ length packets
        → ops.states ≡ states (take (m + g) packets) }
    ensures segments { (packets : List (List ℕ)) (m i : ℕ) (first : Order) → m % 624 ≡ 0
        → IsFirstOrder (drop m packets) first
        → first.ops.states ≡ states (take (m + first.place) packets)
        → i % 4 ≡ 0 → first.place ≤ i → m + i + 4 ≤ length packets
        → own_data (drop m packets) i ≡ four_segments (levels packets) (m + i) }
{}

/// The stamps of a calm feed follow each other. The stamp of an operations packet is later than that of the one before
/// it by the length of the frames between the two. That length is rounded once, down or up. The maximum delay is the
/// same. The frame numbers are those in the packets. So the moments that an exciter sets for segments of the two frames
/// at one offset differ by the time on the air between these segments, up to less than a tick and some whole seconds.
pub fn stamps_and_moments_follow()
    ensures stamps { (feed : List (List ℕ)) (k : ℕ) (before ops : Ops) → IsCalmFeed feed
        → ordered_at (readings feed) k ≡ Some ops → latest_before feed k ≡ Some before → Follows before ops }
    ensures moments { (before ops : Ops) (offset : ℤ) (i j : ℕ) → Follows before ops
        → (rest : ℤ) × IsBelowTick rest
        × DifferBy (grains_of ops.stamp ops.max_delay offset j) (grains_of before.stamp before.max_delay offset i)
        (air_between (frames_between before.frame ops.frame) i j +ℤ rest) }
{}
