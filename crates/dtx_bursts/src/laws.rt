//! Laws of bursts: how many symbols in a row may be wrong or missing.

ghost use Rattle.std.specs.Prelude.{◌≡◌, ℕ, ℤ, ◌+◌, ◌*◌, ◌<◌, ◌≤◌, true, List, [], length, map, slice_index_or};
ghost use Rattle.std.specs.List.{list_all};
ghost use Rattle.dtx_laws.specs.Codeword.{distance};
ghost use Rattle.dtx_coder.specs.Stream.{a53};
ghost use Rattle.dtx_outer.specs.Inner.{IsComplete, word_at};
ghost use Rattle.dtx_receiver.specs.Bytes.{bytes_in, groups_of};
ghost use Rattle.dtx_erase.specs.Marks.{marks_in};
ghost use Rattle.dtx_erase.specs.Mended.{all_mended, marks_at, mended};
ghost use Rattle.dtx_erase.specs.Mending.{lost, unmarked_distance};
ghost use Rattle.dtx_chain.specs.Damage.{AreFound, AreReceived, IsSlight, codeword_at, from_sync, numbers_in};
ghost use Rattle.dtx_chain.specs.Damage.{packet_behind, to_sync, word_in, ArePackets, as_received};
ghost use Rattle.dtx_bursts.specs.Burst.{IsBurst, IsGap, LeavesSyncs};

/// If all field syncs are found, at most 2,022 wrong symbols in a row are slight damage. They may have any values and
/// begin at any symbol. No word has more than ten wrong bytes. So all packets whose bytes are all there come back, and
/// none is flagged (`gives_all_back` of `dtx_chain`). For comparison, two segments are 1,664 symbols.
pub fn wrong_symbols_in_a_row()
    ensures { (packets : List (List ℕ)) (first count from : ℕ) (sent got : List (List ℤ))
        → AreReceived packets first sent got → ArePackets packets → AreFound first sent got
        → count ≤ 2022 → IsBurst count from sent got → IsSlight packets first sent got }
{}

/// Missing symbols, all among at most 4,141 in a row, leave each word mendable, wherever they begin. No word has more
/// than twenty missing bytes, and none has a wrong byte. So if all field syncs are found, all packets whose bytes are
/// all there are mended, from the packet after the first field sync on, in order. None is flagged. For comparison, four
/// segments are 3,328 symbols.
pub fn missing_symbols_in_a_row()
    ensures words { (packets : List (List ℕ)) (first count from : ℕ) (sent got : List (List ℤ))
        → AreReceived packets first sent got → ArePackets packets → count ≤ 4141 → IsGap count from sent got
        → (j : ℕ) → IsComplete 207 52 4 (828 * groups_of (from_sync first got)) j
        → (unmarked_distance (marks_at (marks_in (from_sync first got)) j)
        (word_at 207 52 4 (bytes_in (from_sync first got)) j) (codeword_at packets (packet_behind first + j)) ≡ 0)
        × (lost (marks_at (marks_in (from_sync first got)) j) ≤ 20) }
    ensures packets { (packets : List (List ℕ)) (first count from : ℕ) (sent got : List (List ℤ))
        → AreReceived packets first sent got → ArePackets packets → to_sync first < length sent
        → AreFound first sent got → count ≤ 4141 → IsGap count from sent got
        → mended got ≡ map (λ j. as_received (slice_index_or packets (packet_behind first + j) []))
        (numbers_in (from_sync first got)) }
    ensures unflagged { (packets : List (List ℕ)) (first count from : ℕ) (sent got : List (List ℤ))
        → AreReceived packets first sent got → ArePackets packets → to_sync first < length sent
        → AreFound first sent got → count ≤ 4141 → IsGap count from sent got
        → list_all (λ r. r.good) (all_mended got) ≡ true }
{}

/// All field syncs are found if a burst begins at the first field sync or after it, and reaches at most 32 of the first
/// 515 symbols of each. The burst may have any length, and its symbols may be wrong or missing.
pub fn syncs_are_found()
    ensures wrong { (packets : List (List ℕ)) (first count from : ℕ) (sent got : List (List ℤ))
        → AreReceived packets first sent got → LeavesSyncs first count from (length sent)
        → IsBurst count from sent got → AreFound first sent got }
    ensures missing { (packets : List (List ℕ)) (first count from : ℕ) (sent got : List (List ℤ))
        → AreReceived packets first sent got → LeavesSyncs first count from (length sent)
        → IsGap count from sent got → AreFound first sent got }
{}

/// One more symbol can be too many, although the field syncs are found. Each stream of 52 packets or more can be
/// received with 2,023 wrong symbols in a row, so that the word of its first packet has eleven or more wrong bytes. It
/// can be received with 4,142 missing symbols in a row, so that this word has twenty-one or more missing bytes.
pub fn one_symbol_more_is_too_many()
    ensures wrong { (packets : List (List ℕ)) → ArePackets packets → 52 ≤ length packets
        → (got : List (List ℤ)) × AreReceived packets 0 (a53 packets) got × AreFound 0 (a53 packets) got
        × IsBurst 2023 25425 (a53 packets) got × (11 ≤ distance (word_in 0 got 0) (codeword_at packets 0)) }
    ensures missing { (packets : List (List ℕ)) → 52 ≤ length packets
        → (got : List (List ℤ)) × AreReceived packets 0 (a53 packets) got × AreFound 0 (a53 packets) got
        × IsGap 4142 19982 (a53 packets) got × (21 ≤ lost (marks_at (marks_in (from_sync 0 got)) 0)) }
{}
