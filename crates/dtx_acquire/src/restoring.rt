//! Restores a field: its sync, and its symbols, which are decided.

ghost use Rattle.std.specs.Prelude.{◌≡◌, ℕ, ◌*◌, ◌%◌, ◌<◌, ◌≤◌, [], length, map};
ghost use Rattle.std.specs.Prelude.{slice_index_or};
ghost use Rattle.dtx_soft.specs.Softened.{softened, softened_cost};
ghost use Rattle.dtx_acquire.specs.Acquired.{in_groups, path_cost, restored, restored_data, restored_field};
ghost use Rattle.dtx_acquire.specs.Acquired.{restored_sync};

use crate::deciding::Decisions;
use crate::signs::is_second;
use dtx_frame::{data_segment, field_sync};
use dtx_sizes::{FIELD_PACKETS, FIELD_SEGMENTS, GROUP_PACKETS, SEGMENT, SEGMENT_LEVELS};
use dtx_soft::{FieldDecoder, MOST_SEGMENT_COST};

/// Restores a field, or the first segments of one, and returns the cost of its least paths.
pub(crate) fn restore(
    decoder: &mut FieldDecoder,
    decisions: &Decisions,
    segments: &mut [[i8; SEGMENT]],
) -> u64
    requires scale { decoder.old ≡ decisions.now.scale }
    requires few { length segments.old ≤ FIELD_SEGMENTS }
    ensures segments { segments.new ≡ restored decisions.now.scale segments.old }
    ensures cost { result ≡ path_cost decisions.now.scale segments.old }
    ensures most { result ≤ MOST_SEGMENT_COST * length segments.old }
    ensures scale { decoder.new ≡ decoder.old }
{
    if segments.len() == 0 {
        return 0;
    }
    restore_sync(decisions, &mut segments[0]);
    restore_field(decoder, decisions, &mut segments[1..])
}

/// Restores a field sync.
fn restore_sync(decisions: &Decisions, segment: &mut [i8; SEGMENT])
    ensures { segment.new ≡ restored_sync decisions.now.scale segment.old }
{
    let second = is_second(segment);
    let last = decisions.last(segment);
    field_sync(second, &last, segment);
}

/// Restores the data segments after a field sync, and returns the cost of their least paths.
fn restore_field(
    decoder: &mut FieldDecoder,
    decisions: &Decisions,
    segments: &mut [[i8; SEGMENT]],
) -> u64
    requires scale { decoder.old ≡ decisions.now.scale }
    requires few { length segments.old ≤ FIELD_PACKETS }
    ensures segments { segments.new ≡ restored_field decisions.now.scale segments.old }
    ensures cost { result ≡ softened_cost decisions.now.scale (in_groups segments.old) }
    ensures most { result ≤ MOST_SEGMENT_COST * length segments.old }
    ensures scale { decoder.new ≡ decoder.old }
{
    let whole = GROUP_PACKETS * (segments.len() / GROUP_PACKETS);
    let cost = soften(decoder, &mut segments[..whole]);
    restore_all_data(decisions, segments);
    cost
}

/// Softens whole groups: their symbols become those of their least paths. Returns the cost of these.
fn soften(decoder: &mut FieldDecoder, segments: &mut [[i8; SEGMENT]]) -> u64
    requires scale { decoder.old ≤ 18 }
    requires whole { length segments.old % GROUP_PACKETS ≡ 0 }
    requires few { length segments.old ≤ FIELD_PACKETS }
    ensures segments { segments.new ≡ softened decoder.old segments.old }
    ensures cost { result ≡ softened_cost decoder.old segments.old }
    ensures most { result ≤ MOST_SEGMENT_COST * length segments.old }
    ensures scale { decoder.new ≡ decoder.old }
{
    let cost = decoder.field(segments);
    known(segments);
    cost
}

/// Restores data segments whose symbols are at the scale: decides the symbols, and sets the segment syncs.
fn restore_all_data(decisions: &Decisions, segments: &mut [[i8; SEGMENT]])
    ensures { segments.new ≡ map (restored_data decisions.now.scale) segments.old }
{
    for i in 0..segments.len() {
        restore_data(decisions, &mut segments[i]);
    }
}

/// Restores one data segment.
fn restore_data(decisions: &Decisions, segment: &mut [i8; SEGMENT])
    ensures { segment.new ≡ restored_data decisions.now.scale segment.old }
{
    let mut levels = [0; SEGMENT_LEVELS];
    decisions.levels(segment, &mut levels);
    data_segment(&levels, segment);
}

/// Each segment has 832 symbols.
fn known(segments: &[[i8; SEGMENT]])
    ensures { (i : ℕ) → i < length segments.now → length (slice_index_or segments.now i []) ≡ SEGMENT }
{}
