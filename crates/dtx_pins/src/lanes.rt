//! Sums for the twelve coders side by side, so that they are worked on at once.

ghost use Rattle.std.specs.Prelude.{◌≡◌, ◌≢◌, ℕ, ◌<◌, [], slice_index, slice_index_or};
ghost use Rattle.dtx_pins.specs.Walks.{lane_of, sums_of};
ghost use Rattle.dtx_pins.specs.Steps.{cost_at};

use dtx_sizes::CODERS;
use dtx_soft::LANES;

/// The sums of all coders, from each of the four states.
#[derive(Drop)]
pub(crate) struct Lanes {
    first: [u32; CODERS],
    second: [u32; CODERS],
    third: [u32; CODERS],
    fourth: [u32; CODERS],
}

/// The same where the former Z2 is 0, and where it is 1.
#[derive(Drop)]
pub(crate) struct Sums {
    none: Lanes,
    one: Lanes,
}

/// Sums of nothing.
pub(crate) fn no_sums() -> Sums
    ensures { (e p s : ℕ) → e < CODERS → p < 2 → s < 4 → cost_at (sums_of result e) p s ≡ 0 }
{
    Sums {
        none: no_lanes(),
        one: no_lanes(),
    }
}

/// Lanes of nothing.
fn no_lanes() -> Lanes
    ensures { (e s : ℕ) → e < CODERS → s < 4 → slice_index (lane_of result e) s ≡ 0 }
{
    Lanes {
        first: [0; CODERS],
        second: [0; CODERS],
        third: [0; CODERS],
        fourth: [0; CODERS],
    }
}

/// The sums of a coder.
#[inline(always)]
pub(crate) fn coder_sums(sums: &Sums, e: usize) -> [[u32; 4]; 2]
    requires { e < CODERS }
    ensures { result ≡ sums_of sums.now e }
{
    [lane(&sums.none, e), lane(&sums.one, e)]
}

/// A coder's lane.
#[inline(always)]
fn lane(lanes: &Lanes, e: usize) -> [u32; 4]
    requires { e < CODERS }
    ensures { result ≡ lane_of lanes.now e }
{
    [
        lanes.first[e],
        lanes.second[e],
        lanes.third[e],
        lanes.fourth[e],
    ]
}

/// Writes the sums of a coder.
#[inline(always)]
pub(crate) fn put_sums(new: &[[u32; 4]; 2], e: usize, sums: &mut Sums)
    requires { e < CODERS }
    ensures written { (p s : ℕ) → p < 2 → s < 4 → cost_at (sums_of sums.new e) p s ≡ cost_at new.now p s }
    ensures others { (k : ℕ) → k ≢ e → sums_of sums.new k ≡ sums_of sums.old k }
{
    put_lane(&new[0], e, &mut sums.none);
    put_lane(&new[1], e, &mut sums.one);
}

/// Writes a coder's lane.
#[inline(always)]
fn put_lane(new: &[u32; 4], e: usize, lanes: &mut Lanes)
    requires { e < CODERS }
    ensures written { (s : ℕ) → s < 4 → slice_index (lane_of lanes.new e) s ≡ slice_index new.now s }
    ensures others { (k : ℕ) → k ≢ e → lane_of lanes.new k ≡ lane_of lanes.old k }
{
    lanes.first[e] = new[0];
    lanes.second[e] = new[1];
    lanes.third[e] = new[2];
    lanes.fourth[e] = new[3];
}

/// The sums of each coder.
pub(crate) fn all_sums(sums: &Sums) -> [[[u32; 4]; 2]; CODERS]
    ensures { (e : ℕ) → e < CODERS → slice_index_or result e [] ≡ sums_of sums.now e }
{
    let mut all = [[[0; 4]; 2]; CODERS];
    for e in 0..CODERS {
        all[e] = coder_sums(sums, e);
    }
    all
}

/// A row of the coders, with zeros behind it.
#[inline(always)]
pub(crate) fn lanes_of(row: &[u16; CODERS]) -> [u16; LANES]
    ensures { (e : ℕ) → e < CODERS → slice_index result e ≡ slice_index row.now e }
{
    let mut lanes = [0; LANES];
    for e in 0..CODERS {
        lanes[e] = row[e];
    }
    lanes
}
