//! Laws of the definitions: a coder that is given a stream's groups one after another gives the segments of the stream.

ghost use Rattle.std.specs.Prelude.{◌≡◌, ℕ, ◌+◌, ◌-◌, ◌*◌, ◌/◌, ◌%◌, ◌<◌, ◌≤◌, if◌then◌else◌, ◌++◌, [], List};
ghost use Rattle.std.specs.Prelude.{EachIndex, length, take, drop, slice_index_or, slice_range};
ghost use Rattle.std.specs.List.{range_with_len, flat_map};
ghost use Rattle.dtx_laws.specs.Branches.{HasWidths, spreading};
ghost use Rattle.dtx_laws.specs.Interleaving.{IsInterleavedBehind, interleaved};
ghost use Rattle.dtx_trellis.specs.Groups.{levels_of, states_after};
ghost use Rattle.dtx_coder.specs.Stream.{whole_groups, levels, states, four_segments, group_segments, a53, a53_symbols};
ghost use Rattle.dtx_coder.specs.Groups.{Coding, Group, StandsFor, IsNextGroup, new_coding, aligned_coding};
ghost use Rattle.dtx_coder.specs.Groups.{after_group, air_segments, coded_groups, bytes_of_groups};
ghost use Rattle.dtx_coder.specs.Runs.{AreStates};

pub mod batches;
pub mod runs;

use crate::air::AIR_SEGMENTS;
use dtx_sizes::{
    BRANCH_STEP, BRANCHES, CODEWORD, FIELD_PACKETS, FLUSHING_PACKETS, GROUP_BYTES, GROUP_PACKETS,
    PRECODE, SEGMENT,
};

/// A new coder stands for no packets.
pub fn nothing_given()
    ensures stands { StandsFor new_coding [] }
    ensures segments { a53 [] ≡ [] }
{}

/// A coder that stands for some packets is given their next group. Then it stands for all of these packets, and has
/// given the segments by which the stream is longer.
pub fn next_group()
    ensures stands { (coder : Coding) (packets : List (List ℕ)) (group : Group) → StandsFor coder packets
        → IsNextGroup packets coder.states group
        → StandsFor (after_group coder group) (packets ++ group.packets) }
    ensures segments { (coder : Coding) (packets : List (List ℕ)) (group : Group) → StandsFor coder packets
        → IsNextGroup packets coder.states group
        → a53 (packets ++ group.packets) ≡ a53 packets ++ air_segments coder group }
{}

/// The segments of a stream begin with those of its first groups. Packets after the last whole group add none.
pub fn fronts()
    ensures front { (packets : List (List ℕ)) (u : ℕ) → GROUP_PACKETS * u ≤ length packets
        → a53 packets ≡ a53 (take (GROUP_PACKETS * u) packets)
        ++ flat_map (group_segments packets) (range_with_len u (length packets / GROUP_PACKETS - u)) }
    ensures whole { (packets : List (List ℕ))
        → a53 packets ≡ a53 (take (GROUP_PACKETS * (length packets / GROUP_PACKETS)) packets) }
{}

/// The coders start group u in the states that the groups before it leave. So the data segments of group u follow from
/// these states and its own 828 bytes.
pub fn goes_on()
    ensures levels { (packets : List (List ℕ)) (u : ℕ) → GROUP_PACKETS * u ≤ length packets
        → levels packets ≡ levels (take (GROUP_PACKETS * u) packets)
        ++ levels_of (GROUP_PACKETS * u % FIELD_PACKETS) (states (take (GROUP_PACKETS * u) packets))
        (drop (GROUP_BYTES * u) (whole_groups packets)) }
    ensures states { (packets : List (List ℕ)) (u : ℕ) → GROUP_PACKETS * u ≤ length packets
        → states packets ≡ states_after (GROUP_PACKETS * u % FIELD_PACKETS) (states (take (GROUP_PACKETS * u) packets))
        (drop (GROUP_BYTES * u) (whole_groups packets)) }
    ensures segments { (packets : List (List ℕ)) (u : ℕ) → GROUP_PACKETS * u + GROUP_PACKETS ≤ length packets
        → four_segments (levels packets) (GROUP_PACKETS * u)
        ≡ four_segments (levels_of (GROUP_PACKETS * u % FIELD_PACKETS) (states (take (GROUP_PACKETS * u) packets))
        (slice_range (whole_groups packets) (GROUP_BYTES * u) (GROUP_BYTES * u + GROUP_BYTES))) 0 }
{}

/// How many segments and symbols a stream has: four for each group, and a field sync for each 78 groups that are begun.
pub fn counts()
    ensures segments { (packets : List (List ℕ))
        → length (a53 packets) ≡ GROUP_PACKETS * (length packets / GROUP_PACKETS) +
        (length packets / GROUP_PACKETS + 77) / 78 }
    ensures long { (packets : List (List ℕ))
        → EachIndex (a53 packets) (λ n. length (slice_index_or (a53 packets) n []) ≡ SEGMENT) }
    ensures symbols { (packets : List (List ℕ)) → length (a53_symbols packets) ≡ SEGMENT * length (a53 packets) }
{}

/// After an align, whatever the coder held, the interleaver's map of places says which byte leaves. It is a byte of the
/// groups given since. Where the map's source lies before these groups, it is a byte that the branches held.
pub fn behind_align()
    ensures { (coder : Coding) (groups : List Group) → HasWidths BRANCHES (spreading BRANCH_STEP) coder.branches
        → IsInterleavedBehind BRANCHES BRANCH_STEP coder.branches.lists (coded_groups groups)
        (bytes_of_groups (aligned_coding coder) groups) }
{}

/// After an align, whatever the coder held, the first 52 packets flush out the old bytes. The bytes that leave from
/// packet 52 on are those of the packets given since. The same holds of each group whose first packet is packet 52
/// since the align, or a later one.
pub fn flushed()
    ensures bytes { (coder : Coding) (groups : List Group) (n : ℕ)
        → HasWidths BRANCHES (spreading BRANCH_STEP) coder.branches → CODEWORD * FLUSHING_PACKETS ≤ n
        → drop n (bytes_of_groups (aligned_coding coder) groups)
        ≡ drop n (interleaved BRANCHES BRANCH_STEP (coded_groups groups)) }
    ensures group { (coder : Coding) (groups : List Group) (u : ℕ)
        → HasWidths BRANCHES (spreading BRANCH_STEP) coder.branches → FLUSHING_PACKETS ≤ GROUP_PACKETS * u
        → slice_range (bytes_of_groups (aligned_coding coder) groups) (GROUP_BYTES * u) (GROUP_BYTES * u + GROUP_BYTES)
        ≡ slice_range (interleaved BRANCHES BRANCH_STEP (coded_groups groups)) (GROUP_BYTES * u)
        (GROUP_BYTES * u + GROUP_BYTES) }
{}

/// A group of four packets is sent as five segments where a field sync stands before it, and else as four. Each has 832
/// symbols.
pub fn group_counts()
    ensures segments { (coder : Coding) (group : Group)
        → length (air_segments coder group) ≡ (if group.sync then AIR_SEGMENTS else GROUP_PACKETS) }
    ensures long { (coder : Coding) (group : Group) → length group.packets ≡ GROUP_PACKETS → length coder.last ≡ PRECODE
        → EachIndex (air_segments coder group) (λ n. length (slice_index_or (air_segments coder group) n [])
        ≡ SEGMENT) }
{}

/// The sizes of a coder's parts stay with each group of four packets: twelve states, twelve last symbols, and branches
/// of their widths.
pub fn kept()
    ensures states { (coder : Coding) (group : Group) → AreStates (after_group coder group).states }
    ensures last { (coder : Coding) (group : Group) → length group.packets ≡ GROUP_PACKETS
        → length (after_group coder group).last ≡ PRECODE }
    ensures branches { (coder : Coding) (group : Group) → HasWidths BRANCHES (spreading BRANCH_STEP) coder.branches
        → HasWidths BRANCHES (spreading BRANCH_STEP) (after_group coder group).branches }
{}
