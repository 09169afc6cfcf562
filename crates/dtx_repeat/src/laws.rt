//! Laws of the definitions: which packets of a run are marks, what a feed's packets become, and how lives go on.

ghost use Rattle.std.specs.Prelude.{◌≡◌, ℕ, ℤ, ◌+◌, ◌%◌, ◌≤◌, ◌++◌, ◌∷◌, [], if◌then◌else◌, Bool, List, length, map};
ghost use Rattle.std.specs.Prelude.{slice_index_or, slice_range};
ghost use Rattle.std.specs.List.{range_with_len};
ghost use Rattle.dtx_cadence.specs.Mark.{sync_at};
ghost use Rattle.dtx_frame.specs.Detection.{looks_second};
ghost use Rattle.dtx_receiver.specs.Runs.{runs, tracking};
ghost use Rattle.dtx_receiver.specs.declared.batch.Received.{Received};
ghost use Rattle.dtx_repeat.specs.GoingOn.{AreGiven, with_begun};
ghost use Rattle.dtx_repeat.specs.Lives.{packets_in, lives, lives_so_far};
ghost use Rattle.dtx_repeat.specs.Marks.{is_mark, wrong_signs, HasSyncs, without_mark};
ghost use Rattle.dtx_repeat.specs.Restored.{place_behind, restored, all_restored, restored_so_far};

/// Which packets of a run are marks. Packet k begins a field if 312 divides k. It has the sync byte 0xB8 exactly if it
/// begins a first field, and otherwise 0x47. The run's first field is a second one exactly if its first field sync
/// looks like that of a second one. Then the fields alternate.
pub fn marks()
    ensures { (sync : List ℤ) (k : ℕ)
        → sync_at (place_behind sync + k) ≡ (if is_mark (looks_second sync) k then 0xB8 else 0x47) }
{}

/// A field sync is taken for that of its own field if at most 31 signs are wrong in the middle one of its short
/// sequences.
pub fn few_wrong_signs()
    ensures { (second : Bool) (segment : List ℤ) → wrong_signs second segment ≤ 31 → looks_second segment ≡ second }
{}

/// Take the packets of a feed from packet m on, each received without its mark. Restored from a place that is m modulo
/// 624, they are the feed's packets again. Each packet of the feed begins with 0xB8 if 624 divides its number, and
/// otherwise with 0x47.
pub fn a_feeds_marks_come_back()
    ensures { (feed : List (List ℕ)) (m k : ℕ) (packets : List Received) → HasSyncs feed → k % 624 ≡ m % 624
        → m + length packets ≤ length feed
        → packets_in packets ≡ map (λ j. without_mark (slice_index_or feed j [])) (range_with_len m (length packets))
        → packets_in (restored k packets) ≡ slice_range feed m (m + length packets) }
{}

/// Each run is one life. A segment that begins a run begins one more life. The last life is given the packets that the
/// repeater gives with a segment, and those that it gives at the end of the list.
pub fn lives_go_on()
    ensures many { (segments : List (List ℤ)) → length (lives segments) ≡ length (runs segments) }
    ensures segment { (segments : List (List ℤ)) (x : List ℤ) (packets : List Received)
        → restored_so_far (segments ++ x ∷ []) ≡ restored_so_far segments ++ packets
        → AreGiven (with_begun (tracking segments x) (lives_so_far segments)) (lives_so_far (segments ++ x ∷ []))
        packets }
    ensures end { (segments : List (List ℤ)) (packets : List Received)
        → all_restored segments ≡ restored_so_far segments ++ packets
        → AreGiven (lives_so_far segments) (lives segments) packets }
{}
