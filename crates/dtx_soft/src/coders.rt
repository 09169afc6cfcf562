//! The symbols of one of the twelve coders, read from the segments of a field.

ghost use Rattle.std.specs.Prelude.{◌≡◌, ℕ, pos, ◌+◌, ◌*◌, ◌%◌, ◌<◌, ◌≤◌, length, slice_index_or};
ghost use Rattle.dtx_slice.specs.Unrolled.{symbol_place};
ghost use Rattle.dtx_soft.specs.Coders.{coder_symbols};

use dtx_sizes::{CODERS, SEGMENT, SEGMENT_LEVELS, SEGMENT_ROUNDS, SEGMENT_SYNC};

/// Reads the symbols of a coder: 69 from each segment.
pub(crate) fn gather(segments: &[[i8; SEGMENT]], coder: usize, symbols: &mut [i8])
    requires coder { coder < CODERS }
    requires room { length symbols.old ≡ SEGMENT_ROUNDS * length segments.now }
    ensures { symbols.new ≡ coder_symbols segments.now coder }
{
    for i in 0..segments.len() {
        gather_segment(
            &segments[i],
            first_place(i, coder),
            SEGMENT_ROUNDS * i,
            symbols,
        );
    }
}

/// Reads every twelfth symbol of a segment, from place `from` on. They go to `symbols`, from index `at` on.
#[inline(always)]
fn gather_segment(segment: &[i8; SEGMENT], from: usize, at: usize, symbols: &mut [i8])
    requires from { from < SEGMENT_SYNC + CODERS }
    requires room { at + SEGMENT_ROUNDS ≤ length symbols.old }
    ensures symbols { (r : ℕ) → r < SEGMENT_ROUNDS → slice_index_or symbols.new (at + r) (pos 0)
        ≡ slice_index_or segment.now (from + CODERS * r) (pos 0) }
    ensures before { (k : ℕ) → k < at
        → slice_index_or symbols.new k (pos 0) ≡ slice_index_or symbols.old k (pos 0) }
{
    for r in 0..SEGMENT_ROUNDS {
        symbols[at + r] = segment[from + CODERS * r];
    }
}

/// The place of a coder's first symbol in segment `i`, behind the segment sync. It changes by four from segment to
/// segment.
#[inline(always)]
fn first_place(i: usize, coder: usize) -> usize
    requires { coder < CODERS }
    ensures place { (r : ℕ) → r < SEGMENT_ROUNDS
        → result + CODERS * r ≡ 4 + symbol_place 0 (SEGMENT_ROUNDS * i + r) coder % SEGMENT_LEVELS }
    ensures data { SEGMENT_SYNC ≤ result }
    ensures small { result < SEGMENT_SYNC + CODERS }
{
    SEGMENT_SYNC + (coder + CODERS - 4 * (i % 3)) % CODERS
}
