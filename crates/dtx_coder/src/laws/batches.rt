//! Interleaving packets at once and sending them group by group does what giving their groups one after another does.

ghost use Rattle.std.specs.Prelude.{◌≡◌, ℕ, ℤ, ◌+◌, ◌%◌, ◌++◌, [], List, length};
ghost use Rattle.dtx_coder.specs.Batches.{IsAhead, IsSent, interleaved_as, segments_by_bytes, after_all_bytes};
ghost use Rattle.dtx_coder.specs.Groups.{Coding, Group, IsCoded, IsNextGroup, after_group, stream_coding};
ghost use Rattle.dtx_coder.specs.Runs.{AreInTurn, after_groups, segments_of_groups, group_packets};

use dtx_sizes::{FIELD_PACKETS, GROUP_BYTES, GROUP_PACKETS};

/// Of the groups that were interleaved, the first is sent as `Coder::group` sends it, and the others are then ahead as
/// before. When all are sent, the coder is as if `Coder::group` had been given them.
pub fn sent_in_turn()
    ensures coded { (held ahead new : Coding) (group : Group) (rest : List (List ℕ)) (bytes left : List ℕ)
        (count : ℕ) (sent : List ℤ) → IsAhead held group.first (group.packets ++ rest) (bytes ++ left) ahead
        → length group.packets ≡ GROUP_PACKETS → length bytes ≡ GROUP_BYTES
        → IsSent ahead (interleaved_as bytes group) new count sent
        → IsCoded held group (after_group held group) count sent }
    ensures ahead { (held ahead new : Coding) (group : Group) (rest : List (List ℕ)) (bytes left : List ℕ)
        (count : ℕ) (sent : List ℤ) → IsAhead held group.first (group.packets ++ rest) (bytes ++ left) ahead
        → length group.packets ≡ GROUP_PACKETS → length bytes ≡ GROUP_BYTES
        → IsSent ahead (interleaved_as bytes group) new count sent
        → IsAhead (after_group held group) (group.first + GROUP_PACKETS) rest left new }
    ensures all { (held ahead : Coding) (first : ℕ) (bytes : List ℕ) → IsAhead held first [] bytes ahead
        → ahead ≡ held }
{}

/// Only the remainder modulo 312 of a place in a field counts.
pub fn places()
    ensures { (held ahead : Coding) (j k : ℕ) (packets : List (List ℕ)) (bytes : List ℕ)
        → j % FIELD_PACKETS ≡ k % FIELD_PACKETS → IsAhead held j packets bytes ahead
        → IsAhead held k packets bytes ahead }
{}

/// Consecutive groups are interleaved at once and sent one after another. Their segments, and the coder after them, are
/// those of groups that are given one after another.
pub fn all_in_turn()
    ensures segments { (held ahead : Coding) (s : ℕ) (groups : List Group) (bytes : List ℕ) → AreInTurn s groups
        → IsAhead held s (group_packets groups) bytes ahead
        → segments_by_bytes ahead groups bytes ≡ segments_of_groups held groups }
    ensures coder { (held ahead : Coding) (s : ℕ) (groups : List Group) (bytes : List ℕ) → AreInTurn s groups
        → IsAhead held s (group_packets groups) bytes ahead
        → after_all_bytes ahead groups bytes ≡ after_groups held groups }
{}

/// The next group of a stream is sent by a coder that has interleaved packets ahead. Its segments are those that a
/// coder gives which stands for the packets before. Afterwards the coder is ahead of one that stands for this group
/// too.
pub fn next_of_stream()
    ensures coded { (packets rest : List (List ℕ)) (ahead new : Coding) (group : Group) (bytes left : List ℕ)
        (count : ℕ) (sent : List ℤ)
        → IsAhead (stream_coding packets) (length packets) (group.packets ++ rest) (bytes ++ left) ahead
        → IsNextGroup packets ahead.states group → length bytes ≡ GROUP_BYTES
        → IsSent ahead (interleaved_as bytes group) new count sent
        → IsCoded (stream_coding packets) group (stream_coding (packets ++ group.packets)) count sent }
    ensures ahead { (packets rest : List (List ℕ)) (ahead new : Coding) (group : Group) (bytes left : List ℕ)
        (count : ℕ) (sent : List ℤ)
        → IsAhead (stream_coding packets) (length packets) (group.packets ++ rest) (bytes ++ left) ahead
        → IsNextGroup packets ahead.states group → length bytes ≡ GROUP_BYTES
        → IsSent ahead (interleaved_as bytes group) new count sent
        → IsAhead (stream_coding (packets ++ group.packets)) (length (packets ++ group.packets)) rest left new }
{}
