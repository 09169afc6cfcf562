//! The decoder of all twelve coders of a field.

ghost use Rattle.std.specs.Prelude.{◌≡◌, ℕ, ◌+◌, ◌*◌, ◌<◌, ◌≤◌, IfOk, length, map, slice_index, sum};
ghost use Rattle.std.specs.List.{range_with_len};
ghost use Rattle.dtx_soft.specs.Bounds.{IsBounded, words};
ghost use Rattle.dtx_soft.specs.Gaps.{AreWalked, gap_at};
ghost use Rattle.dtx_soft.specs.Coders.{IsSoftened, coders_distance};

use crate::gaps::{Gaps, LANES, backward};
use crate::near::{are_near, widened};
use crate::nearest::{MAX_SCALE, MOST_SEGMENT_COST};
use crate::rounds::{lay_out, put_back};
use crate::trace::forward;
use crate::walk::MAX_SYMBOLS;
use dtx_sizes::{CODERS, FIELD_PACKETS, SEGMENT, SEGMENT_ROUNDS};
use std::alloc::{AllocError, Global};
use std::marker::Model;

/// Decodes the symbols of the twelve trellis coders of a field (ATSC A/53 Part 2, trellis coding). For each coder it
/// finds the path whose levels lie nearest to its symbols, in the sum of the squares. Contracts see its scale.
#[derive(Drop)]
pub struct FieldDecoder {
    scale: u8,
    rounds: Vec<[i8; LANES]>,
    marks: Vec<[u8; LANES]>,
}

impl Model for FieldDecoder {
    ghost use Rattle.std.specs.Prelude.{ℕ, ◌≡◌, ◌≤◌, vec_len};
    ghost use Rattle.dtx_soft.specs.declared.nearest.TheConstants.{MAX_SCALE};
    ghost use Rattle.dtx_soft.specs.declared.walk.TheConstants.{MAX_SYMBOLS};

    ghost Value = { ℕ };

    ghost view = { λ d. d.scale };

    ghost invariant = { λ d. (d.scale ≤ MAX_SCALE) × (vec_len d.rounds ≡ MAX_SYMBOLS)
        × (vec_len d.marks ≡ MAX_SYMBOLS) };
}

impl FieldDecoder {
    /// A decoder of symbols at `scale` times the standard's levels, which are 2 * z - 7 for z from 0 to 7. The only
    /// error is out of memory.
    pub fn scaled(alloc: Global, scale: u8) -> Result<FieldDecoder, AllocError>
        requires { scale ≤ MAX_SCALE }
        ensures { IfOk result (λ decoder. decoder ≡ scale) }
    {
        Ok(FieldDecoder {
            scale,
            rounds: vec![in alloc; [0i8; LANES]; MAX_SYMBOLS]?,
            marks: vec![in alloc; [0u8; LANES]; MAX_SYMBOLS]?,
        })
    }

    /// Replaces the symbols of each of the twelve coders by those of its least path, in the first data segments of a
    /// field. It returns the sum of the costs of the twelve paths.
    pub fn field(&mut self, segments: &mut [[i8; SEGMENT]]) -> u64
        requires few { length segments.old ≤ FIELD_PACKETS }
        ensures segments { IsSoftened self.old segments.old segments.new }
        ensures cost { result ≡ coders_distance segments.old segments.new CODERS }
        ensures most { result ≤ MOST_SEGMENT_COST * length segments.old }
        ensures scale { self.new ≡ self.old }
    {
        soften(
            self.scale,
            &mut self.rounds[..],
            &mut self.marks[..],
            segments,
        )
    }
}

/// Replaces the symbols of each coder by those of its least path, and returns the sum of the costs. The caller lends
/// the room: `rounds` for the symbols of all coders, and `marks` for a mark of each.
fn soften(
    scale: u8,
    rounds: &mut [[i8; LANES]],
    marks: &mut [[u8; LANES]],
    segments: &mut [[i8; SEGMENT]],
) -> u64
    requires scale { scale ≤ MAX_SCALE }
    requires few { length segments.old ≤ FIELD_PACKETS }
    requires rounds { length rounds.old ≡ MAX_SYMBOLS }
    requires marks { length marks.old ≡ MAX_SYMBOLS }
    ensures segments { IsSoftened scale segments.old segments.new }
    ensures cost { result ≡ coders_distance segments.old segments.new CODERS }
    ensures most { result ≤ MOST_SEGMENT_COST * length segments.old }
{
    let count = SEGMENT_ROUNDS * segments.len();
    soften_rounds(scale, &mut rounds[..count], &mut marks[..count], segments)
}

/// Does the same with just the room that is needed, for all coders side by side, each in its lane.
fn soften_rounds(
    scale: u8,
    rounds: &mut [[i8; LANES]],
    marks: &mut [[u8; LANES]],
    segments: &mut [[i8; SEGMENT]],
) -> u64
    requires scale { scale ≤ MAX_SCALE }
    requires few { length segments.old ≤ FIELD_PACKETS }
    requires rounds { length rounds.old ≡ SEGMENT_ROUNDS * length segments.old }
    requires marks { length marks.old ≡ SEGMENT_ROUNDS * length segments.old }
    ensures segments { IsSoftened scale segments.old segments.new }
    ensures cost { result ≡ coders_distance segments.old segments.new CODERS }
    ensures most { result ≤ MOST_SEGMENT_COST * length segments.old }
{
    lay_out(segments, rounds);
    let gaps = walk_back(scale, rounds, marks);
    let costs = forward(scale, marks, &gaps, rounds);
    put_back(rounds, segments);
    total(&costs)
}

/// Writes the marks of all rounds, and returns the gaps of the potentials before the first one. It works in bytes where
/// these are wide enough, and else in numbers of 16 bits.
fn walk_back(scale: u8, rounds: &[[i8; LANES]], marks: &mut [[u8; LANES]]) -> Gaps<i16>
    requires scale { scale ≤ MAX_SCALE }
    requires room { length marks.old ≡ length rounds.now }
    ensures bounded { (n : ℕ) → n < LANES → IsBounded words (gap_at result n) }
    ensures walked { AreWalked scale 0 rounds.now (gap_at result) marks.new }
{
    if are_near(scale, rounds) {
        widened(&backward::<i8>(scale, rounds, marks))
    } else {
        backward::<i16>(scale, rounds, marks)
    }
}

/// The sum of the costs of the twelve coders' paths.
pub fn total(costs: &[u32; LANES]) -> u64
    ensures { result ≡ sum (map (λ e. slice_index costs.now e) (range_with_len 0 CODERS)) }
{
    let mut total = 0;
    for e in 0..CODERS {
        total += costs[e] as u64;
    }
    total
}
