//! Groups that a coder is given one after another, whatever it was given before. From preset states on, the levels are
//! one closed formula over all bytes since.

ghost use Rattle.std.specs.Prelude.{◌≡◌, ℕ, ◌+◌, ◌-◌, ◌*◌, ◌/◌, ◌%◌, ◌<◌, ◌≤◌, if◌then◌else◌, ◌++◌, [], ◌∷◌, List};
ghost use Rattle.std.specs.Prelude.{length, drop};
ghost use Rattle.dtx_laws.specs.Branches.{HasWidths, spreading, leaving_all, after_all};
ghost use Rattle.dtx_frame.specs.Segments.{field_sync};
ghost use Rattle.dtx_trellis.specs.Groups.{levels_of, states_after};
ghost use Rattle.dtx_coder.specs.Stream.{coded, segment, four_segments, last_of};
ghost use Rattle.dtx_coder.specs.Groups.{Coding, Group, aligned_coding, after_group, air_segments, coded_groups};
ghost use Rattle.dtx_coder.specs.Groups.{bytes_of_groups};
ghost use Rattle.dtx_coder.specs.Runs.{AreStates, AreInTurn, IsGroupRun, after_groups, segments_of_groups};
ghost use Rattle.dtx_coder.specs.Runs.{group_packets};
ghost use Rattle.dtx_coder.specs.Runs.{last_in, run_segments};
ghost use Rattle.dtx_coder.specs.Along.{IsNext, RunsAlong, levels_since, states_since};

use dtx_sizes::{BRANCH_STEP, BRANCHES, FLUSHING_PACKETS, GROUP_BYTES, GROUP_PACKETS};

/// Groups may be cut anywhere: those after the cut go on from the coder that the ones before it leave.
pub fn one_after_another()
    ensures coder { (coder : Coding) (front rest : List Group)
        → after_groups coder (front ++ rest) ≡ after_groups (after_groups coder front) rest }
    ensures bytes { (coder : Coding) (front rest : List Group)
        → bytes_of_groups coder (front ++ rest) ≡ bytes_of_groups coder front
        ++ bytes_of_groups (after_groups coder front) rest }
    ensures segments { (coder : Coding) (front rest : List Group)
        → segments_of_groups coder (front ++ rest) ≡ segments_of_groups coder front
        ++ segments_of_groups (after_groups coder front) rest }
{}

/// The bytes that leave the interleaver while groups are given, and its branches after them.
pub fn interleaved_groups()
    ensures bytes { (coder : Coding) (groups : List Group)
        → bytes_of_groups coder groups ≡ leaving_all BRANCHES coder.branches (coded_groups groups) }
    ensures branches { (coder : Coding) (groups : List Group)
        → (after_groups coder groups).branches ≡ after_all BRANCHES coder.branches (coded_groups groups) }
    ensures long { (coder : Coding) (groups : List Group) (s : ℕ) → AreInTurn s groups
        → length (bytes_of_groups coder groups) ≡ GROUP_BYTES * length groups }
    ensures packets { (groups : List Group) → AreInTurn 0 groups → coded_groups groups ≡ coded (group_packets groups) }
{}

/// The first states of a run and all of its bytes give its levels. The run's segments are those of these levels. So are
/// the states and the last twelve symbols after it.
pub fn runs()
    ensures segments { (coder : Coding) (s : ℕ) (q : List ℕ) (groups : List Group) → IsGroupRun s q coder groups
        → segments_of_groups coder groups ≡ run_segments coder.last
        (levels_of s q (bytes_of_groups coder groups)) groups }
    ensures states { (coder : Coding) (s : ℕ) (q : List ℕ) (groups : List Group) → IsGroupRun s q coder groups
        → 0 < length groups
        → (after_groups coder groups).states ≡ states_after s q (bytes_of_groups coder groups) }
    ensures last { (coder : Coding) (s : ℕ) (q : List ℕ) (groups : List Group) → IsGroupRun s q coder groups
        → (after_groups coder groups).last ≡ last_in coder.last (levels_of s q (bytes_of_groups coder groups))
        (length groups) }
{}

/// A run with preset states follows other groups. Two things of those groups enter its segments: the bytes that they
/// left in the branches, and their last twelve symbols, which end a first field sync.
pub fn restarts()
    ensures segments { (coder : Coding) (front run : List Group) (r s : ℕ) (q : List ℕ) → AreInTurn r front
        → IsGroupRun s q (after_groups coder front) run
        → segments_of_groups coder (front ++ run)
        ≡ segments_of_groups coder front ++ run_segments (after_groups coder front).last
        (levels_of s q (drop (GROUP_BYTES * length front) (bytes_of_groups coder (front ++ run)))) run }
    ensures states { (coder : Coding) (front run : List Group) (r s : ℕ) (q : List ℕ) → AreInTurn r front
        → IsGroupRun s q (after_groups coder front) run → 0 < length run
        → (after_groups coder (front ++ run)).states
        ≡ states_after s q (drop (GROUP_BYTES * length front) (bytes_of_groups coder (front ++ run))) }
{}

/// A coder follows a stream from an align on (`RunsAlong`). This holds at the align, and goes on to hold with each next
/// group, whether that has preset states or not.
pub fn along()
    ensures begins { (coder : Coding) → AreStates coder.states
        → HasWidths BRANCHES (spreading BRANCH_STEP) coder.branches
        → RunsAlong [] 0 coder.states (aligned_coding coder) }
    ensures goes_on { (packets : List (List ℕ)) (g : ℕ) (q : List ℕ) (coder : Coding) (group : Group)
        → RunsAlong packets g q coder → IsNext packets coder.states group
        → RunsAlong (packets ++ group.packets) g q (after_group coder group) }
    ensures preset { (packets : List (List ℕ)) (g : ℕ) (q p : List ℕ) (coder : Coding) (group : Group)
        → RunsAlong packets g q coder → IsNext packets p group
        → RunsAlong (packets ++ group.packets) (length packets / GROUP_PACKETS) p (after_group coder group) }
{}

/// Suppose that the last preset states came 52 packets or more after the align. Then nothing is left that the coder was
/// given before the align. The next group's data segments, the states and the last twelve symbols follow from the
/// packets since the align alone, where the coders start at the preset states' group.
pub fn sent_along()
    ensures group { (packets : List (List ℕ)) (g : ℕ) (q : List ℕ) (coder : Coding) (group : Group)
        → RunsAlong packets g q coder → FLUSHING_PACKETS ≤ GROUP_PACKETS * g → IsNext packets coder.states group
        → air_segments coder group
        ≡ (if group.sync then field_sync group.second coder.last ∷ [] else [])
        ++ four_segments (levels_since g q (packets ++ group.packets)) (length packets - GROUP_PACKETS * g) }
    ensures preset { (packets : List (List ℕ)) (g : ℕ) (q p : List ℕ) (coder : Coding) (group : Group)
        → RunsAlong packets g q coder → FLUSHING_PACKETS ≤ length packets → IsNext packets p group
        → air_segments coder group
        ≡ (if group.sync then field_sync group.second coder.last ∷ [] else [])
        ++ four_segments (levels_since (length packets / GROUP_PACKETS) p (packets ++ group.packets)) 0 }
    ensures states { (packets : List (List ℕ)) (g : ℕ) (q : List ℕ) (coder : Coding) → RunsAlong packets g q coder
        → FLUSHING_PACKETS ≤ GROUP_PACKETS * g → coder.states ≡ states_since g q packets }
    ensures last { (packets : List (List ℕ)) (g : ℕ) (q : List ℕ) (coder : Coding) → RunsAlong packets g q coder
        → FLUSHING_PACKETS ≤ GROUP_PACKETS * g → GROUP_PACKETS * g < length packets
        → coder.last ≡ last_of (segment (levels_since g q packets) (length packets - GROUP_PACKETS * g - 1)) }
{}
