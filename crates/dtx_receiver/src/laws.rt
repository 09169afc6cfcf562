//! Laws of the definitions: what runs are, and which packets a run gives.

ghost use Rattle.std.specs.Prelude.{◌≡◌, ◌↔◌, ℕ, ℤ, ◌+◌, ◌*◌, ◌%◌, ◌<◌, ◌≤◌, ◌==◌, ◌⊎◌, ◌++◌, ◌∷◌, []};
ghost use Rattle.std.specs.Prelude.{if◌then◌else◌, List, true, length, map, take, All};
ghost use Rattle.dtx_frame.specs.Detection.{looks_like};
ghost use Rattle.dtx_receiver.specs.declared.tracking.Tracking.TheVariants as Tracking;
ghost use Rattle.dtx_outer.specs.Inner.{IsComplete};
ghost use Rattle.dtx_receiver.specs.Intervals.{AreRuns, NoneLooks, segments_in};
ghost use Rattle.dtx_receiver.specs.Packets.{all_packets, packets_so_far, is_complete, received};
ghost use Rattle.dtx_receiver.specs.declared.batch.Received.{Received};
ghost use Rattle.dtx_receiver.specs.Runs.{runs, begun, tracking};

/// The runs of a list of segments are the intervals that `AreRuns` names, which holds of exactly one list of intervals.
/// There is no run exactly where no segment looks like a field sync.
pub fn intervals()
    ensures are { (segments : List (List ℤ)) → (places : List (ℕ × ℕ)) × AreRuns segments 0 places
        × (runs segments ≡ map (segments_in segments) places) }
    ensures only { (segments : List (List ℤ)) (from : ℕ) (a b : List (ℕ × ℕ)) → AreRuns segments from a
        → AreRuns segments from b → a ≡ b }
    ensures none { (segments : List (List ℤ)) → (length (runs segments) ≡ 0) ↔ NoneLooks segments 0 (length segments) }
{}

/// How the segment after a list is tracked. If the last run of the list reaches its end, the run is on. A field sync is
/// due where 313 divides its length. Then the segment is `Sync` or `Ended`, by whether it looks like a field sync, and
/// else `Data`. If no run reaches the end, the segment is `Began` or `Searching`, by whether it looks like one.
pub fn answers()
    ensures on { (segments : List (List ℤ)) (x : List ℤ) (places : List (ℕ × ℕ)) (first n : ℕ)
        → AreRuns segments 0 (places ++ (first, n) ∷ []) → first + n ≡ length segments
        → tracking segments x
        ≡ (if n % 313 == 0 then (if looks_like x then Tracking.Sync else Tracking.Ended) else Tracking.Data) }
    ensures off { (segments : List (List ℤ)) (x : List ℤ) (places : List (ℕ × ℕ)) → AreRuns segments 0 places
        → All (λ p. p.0 + p.1 < length segments) places
        → tracking segments x ≡ (if looks_like x then Tracking.Began else Tracking.Searching) }
{}

/// One segment more brings one run more exactly where it is tracked as `Began`.
pub fn one_more()
    ensures none { runs [] ≡ [] }
    ensures count { (segments : List (List ℤ)) (x : List ℤ)
        → length (runs (segments ++ x ∷ [])) ≡ length (runs segments) + begun (tracking segments x) }
{}

/// The packets that one segment more brings follow those given before. So do those that are left at the end of the
/// list.
pub fn goes_on()
    ensures none { packets_so_far [] ≡ [] }
    ensures segment { (segments : List (List ℤ)) (x : List ℤ)
        → (brought : List Received) × (packets_so_far (segments ++ x ∷ []) ≡ packets_so_far segments ++ brought) }
    ensures end { (segments : List (List ℤ)) → (brought : List Received)
        × (all_packets segments ≡ packets_so_far segments ++ brought) }
{}

/// All bytes of packet k are among those of `count` data segments exactly where enough of these begin at the packet's
/// own: 53 or more, or 52 where 52 divides k.
pub fn complete()
    ensures told { (count k : ℕ) → is_complete count k ≡ true ↔ IsComplete 207 52 4 count k }
    ensures only { (count k : ℕ) → IsComplete 207 52 4 (207 * count) k
        → (k + 53 ≤ count) ⊎ ((k + 52 ≡ count) × (k % 52 ≡ 0)) }
    ensures all { (count k : ℕ) → (k + 53 ≤ count) ⊎ ((k + 52 ≡ count) × (k % 52 ≡ 0))
        → IsComplete 207 52 4 (207 * count) k }
{}

/// The packets of the first n segments of a list are the first packets of the list. So a cut brings no new packet, and
/// changes none.
pub fn cut()
    ensures packets { (segments : List (List ℤ)) (n : ℕ)
        → (rest : List Received) × (all_packets segments ≡ all_packets (take n segments) ++ rest) }
    ensures bytes { (segments : List (List ℤ)) (n : ℕ)
        → (rest : List (List ℕ)) × (received segments ≡ received (take n segments) ++ rest) }
{}

/// Suppose that no run is on at the end of a first list. Then the packets of this list with a second one after it are
/// those of the first, followed by those of the second. No run is on where the first list has none, or where its last
/// run ends before one of its segments. There a field sync is due, and the segment doesn't look like one.
pub fn splice()
    ensures none { (first second : List (List ℤ)) → NoneLooks first 0 (length first)
        → received (first ++ second) ≡ received second }
    ensures ended { (first second : List (List ℤ)) (places : List (ℕ × ℕ)) (place n : ℕ)
        → AreRuns first 0 (places ++ (place, n) ∷ []) → place + n < length first
        → received (first ++ second) ≡ received first ++ received second }
    ensures runs { (first second : List (List ℤ)) (places : List (ℕ × ℕ)) → AreRuns first 0 places
        → All (λ p. p.0 + p.1 < length first) places → runs (first ++ second) ≡ runs first ++ runs second }
    ensures packets { (first second : List (List ℤ)) (places : List (ℕ × ℕ)) → AreRuns first 0 places
        → All (λ p. p.0 + p.1 < length first) places
        → all_packets (first ++ second) ≡ all_packets first ++ all_packets second }
{}
