//! Fields all of whose pairs are known. From each beginning one path is left: that of the encoder. A beginning is a
//! state 2 * q1 + q0, and the Z2 before the first level. Two such paths of a coder have the same Z1. Their Z2 differ at
//! each step if the beginnings do in Z2. Their Z0 differ at even steps if the beginnings do in q1, and at odd steps if
//! they do in q0. So one path is followed for each coder, and sums say what the others weigh less.

ghost use Rattle.std.specs.Prelude.{◌≡◌, ◌≢◌, ℕ, pos, ◌+◌, ◌-◌, ◌*◌, ◌%◌, ◌<◌, ◌≤◌, ◌+ℤ◌, ◌-ℤ◌, ◌≤ℤ◌};
ghost use Rattle.std.specs.Prelude.{FitsSigned, [], length, slice_index, slice_index_or};
ghost use Rattle.std.specs.Int.{w8};
ghost use Rattle.dtx_pins.specs.Pins.{AreAllTold, pin_at};
ghost use Rattle.dtx_pins.specs.Steps.{cost_at};
ghost use Rattle.dtx_pins.specs.Told.{IsLane, IsWithin, alike, both_by, emptied, excess_at, excess_or, excess_with};
ghost use Rattle.dtx_pins.specs.Told.{far_by, lane_after, lane_at, lane_behind, less_by, near_by, signed, told_mark};
ghost use Rattle.dtx_pins.specs.Told.{beginning, from_beginning, if_bit, less_beside, less_with_z2};
ghost use Rattle.dtx_pins.specs.Walks.{AreWalked};

use crate::lanes::lanes_of;
use dtx_sizes::{CODERS, FIELD_PACKETS, SEGMENT, SEGMENT_ROUNDS};
use dtx_soft::{LANES, MAX_SCALE, read_turned};

/// Sums over steps of one coder, of what its path weighs more than others. `near` and `both` are over the steps that
/// are an even number of steps before the next one, and `other_near` and `other_both` over those between them.
#[derive(Clone, Copy, Drop)]
struct Excess<T> {
    /// A sixteenth of what the path weighs more than the one with the other Z2.
    far: T,
    /// A fourth of what it weighs more than the one with the other Z0 at these steps.
    near: T,
    other_near: T,
    /// The scale at each step where Z2 and Z0 are equal, and its negative elsewhere.
    both: T,
    other_both: T,
}

/// The sums of each coder.
#[derive(Drop)]
struct Excesses<T> {
    far: [T; LANES],
    near: [T; LANES],
    other_near: [T; LANES],
    both: [T; LANES],
    other_both: [T; LANES],
}

/// Where the path of one coder stands that begins at state 0 behind Z2 = 0, and its sums over the steps of a segment.
#[derive(Drop)]
struct Lane {
    former: u16,
    q1: u16,
    q0: u16,
    more: Excess<i16>,
}

/// The same of each coder.
#[derive(Drop)]
struct Told {
    former: [u16; LANES],
    q1: [u16; LANES],
    q0: [u16; LANES],
    more: Excesses<i16>,
}

/// Writes the marks of all steps in place of their pins, each of which tells a pair. Returns sums of weights that stand
/// for the least costs before the first step.
#[inline(never)]
pub(crate) fn told_sums(
    scale: u8,
    cells: &mut [[u16; CODERS]],
    heard: &[[i8; SEGMENT]],
) -> [[[u32; 4]; 2]; CODERS]
    requires from { 0 < scale }
    requires to { scale ≤ MAX_SCALE }
    requires few { length heard.now ≤ FIELD_PACKETS }
    requires pins { length cells.old ≡ SEGMENT_ROUNDS * length heard.now }
    requires told { AreAllTold cells.old }
    ensures { AreWalked scale 0 cells.old heard.now (λ e. slice_index_or result e []) cells.new }
{
    let mut told = beginning();
    let mut totals = alike(0);
    for i in 0..heard.len() {
        let at = SEGMENT_ROUNDS * i;
        told_segment(
            scale,
            &mut cells[at..at + SEGMENT_ROUNDS],
            &heard[i],
            i % 3,
            &mut told,
        );
        add(&mut told, &mut totals);
    }
    all_sums(heard.len(), &totals)
}

/// The beginnings of the paths.
fn beginning() -> Told
    ensures { (e : ℕ) → e < LANES → lane_at result e ≡ beginning }
{
    Told {
        former: [0; LANES],
        q1: [0; LANES],
        q0: [0; LANES],
        more: alike(0),
    }
}

/// Sums that are all the same.
fn alike<T: Copy>(number: T) -> Excesses<T>
    ensures { (e : ℕ) (other : T) → e < LANES → excess_or result e other ≡ alike number }
{
    Excesses {
        far: [number; LANES],
        near: [number; LANES],
        other_near: [number; LANES],
        both: [number; LANES],
        other_both: [number; LANES],
    }
}

/// Takes the steps of one segment. In it the coders have moved on by four places `turn` times.
#[inline(always)]
fn told_segment(
    scale: u8,
    cells: &mut [[u16; CODERS]],
    heard: &[i8; SEGMENT],
    turn: usize,
    told: &mut Told,
)
    requires scale { scale ≤ MAX_SCALE }
    requires pins { length cells.old ≡ SEGMENT_ROUNDS }
    requires told { AreAllTold cells.old }
    requires turn { turn < 3 }
    requires lanes { (e : ℕ) → e < LANES → IsLane 0 (lane_at told.old e) }
    ensures lanes { (e : ℕ) → e < CODERS → lane_at told.new e
        ≡ lane_behind scale (λ r. pin_at (slice_index_or cells.old r []) e)
        (λ r. slice_index_or heard.now (4 + 12 * r + (e + 12 - 4 * turn) % 12) (pos 0)) SEGMENT_ROUNDS
        (lane_at told.old e) }
    ensures small { (e : ℕ) → e < LANES → IsLane SEGMENT_ROUNDS (lane_at told.new e) }
    ensures marks { (r e : ℕ) → r < SEGMENT_ROUNDS → e < CODERS → slice_index (slice_index_or cells.new r []) e
        ≡ told_mark (pin_at (slice_index_or cells.old r []) e) }
    ensures bytes { (r e : ℕ) → r < SEGMENT_ROUNDS → e < CODERS
        → FitsSigned w8 (slice_index_or heard.now (4 + 12 * r + (e + 12 - 4 * turn) % 12) (pos 0)) }
{
    for r in 0..SEGMENT_ROUNDS {
        let pins = cells[r];
        told_step(scale, &lanes_of(&pins), &read_turned(heard, r, turn), told);
        cells[r] = marks_of(&pins);
    }
}

/// The mark of each pin. It has one number for all states, and behind the other Z2 the number with the other Z2.
#[inline(always)]
fn marks_of(pins: &[u16; CODERS]) -> [u16; CODERS]
    requires told { (e : ℕ) → e < CODERS → slice_index pins.now e < 4 }
    ensures { (e : ℕ) → e < CODERS → slice_index result e ≡ told_mark (slice_index pins.now e) }
{
    let mut marks = [0; CODERS];
    for e in 0..CODERS {
        marks[e] = 85 * pins[e] + 21760 * ((pins[e] + 2) % 4);
    }
    marks
}

/// Takes one step.
#[inline(always)]
fn told_step(scale: u8, pins: &[u16; LANES], symbols: &[i8; LANES], told: &mut Told)
    requires scale { scale ≤ MAX_SCALE }
    requires lanes { (e : ℕ) → e < LANES → IsLane (SEGMENT_ROUNDS - 1) (lane_at told.old e) }
    ensures lanes { (e : ℕ) → e < LANES → lane_at told.new e
        ≡ lane_after scale (slice_index pins.now e) (slice_index_or symbols.now e (pos 0)) (lane_at told.old e) }
    ensures small { (n e : ℕ) → e < LANES → IsLane n (lane_at told.old e) → IsLane (n + 1) (lane_at told.new e) }
    ensures bytes { (e : ℕ) → e < LANES → FitsSigned w8 (slice_index_or symbols.now e (pos 0)) }
{
    for e in 0..LANES {
        let lane = lane_of(told, e);
        put_lane(&told_lane(scale, pins[e], symbols[e], &lane), e, told);
    }
}

/// Takes one step of a coder.
#[inline(always)]
fn told_lane(scale: u8, pin: u16, symbol: i8, lane: &Lane) -> Lane
    requires scale { scale ≤ MAX_SCALE }
    requires lane { IsLane (SEGMENT_ROUNDS - 1) lane.now }
    ensures after { result ≡ lane_after scale pin symbol lane.now }
    ensures small { (n : ℕ) → IsLane n lane.now → IsLane (n + 1) result }
{
    let z2 = (lane.former + pin / 2) % 2;
    let x1 = pin % 2;
    let more = lane.more;
    Lane {
        former: z2,
        q1: (x1 + lane.q0) % 2,
        q0: lane.q1,
        more: Excess {
            far: more.far + far_by(scale, z2, x1, lane.q1, symbol),
            near: more.other_near,
            other_near: more.near + near_by(scale, z2, x1, lane.q1, symbol),
            both: more.other_both,
            other_both: more.both + both_by(scale, z2, lane.q1),
        },
    }
}

/// A sixteenth of what a level weighs more than the one with the other Z2.
#[inline(always)]
fn far_by(scale: u8, z2: u16, x1: u16, q1: u16, symbol: i8) -> i16
    requires scale { scale ≤ MAX_SCALE }
    ensures far { result ≡ far_by scale z2 x1 q1 symbol }
    ensures from { pos 0 ≤ℤ (result +ℤ pos 240) }
    ensures to { result ≤ℤ pos 240 }
{
    let scale = scale as i16;
    let level = signed(x1, 2 * scale);
    signed(z2, symbol as i16 + level + signed(q1, scale))
}

/// A fourth of what a level weighs more than the one with the other Z0.
#[inline(always)]
fn near_by(scale: u8, z2: u16, x1: u16, q1: u16, symbol: i8) -> i16
    requires scale { scale ≤ MAX_SCALE }
    ensures near { result ≡ near_by scale z2 x1 q1 symbol }
    ensures from { pos 0 ≤ℤ (result +ℤ pos 240) }
    ensures to { result ≤ℤ pos 240 }
{
    let scale = scale as i16;
    let level = signed(z2, 4 * scale);
    signed(q1, symbol as i16 + level + signed(x1, 2 * scale))
}

/// The scale where Z2 and Z0 are equal, and else its negative.
#[inline(always)]
fn both_by(scale: u8, z2: u16, q1: u16) -> i16
    requires scale { scale ≤ MAX_SCALE }
    ensures both { result ≡ both_by scale z2 q1 }
    ensures from { pos 0 ≤ℤ (result +ℤ pos 240) }
    ensures to { result ≤ℤ pos 240 }
{
    signed(z2, signed(q1, scale as i16))
}

/// A number, with the other sign where a bit is 1.
#[inline(always)]
fn signed(bit: u16, number: i16) -> i16
    requires from { pos 0 ≤ℤ (number +ℤ pos 240) }
    requires to { number ≤ℤ pos 240 }
    ensures signed { result ≡ signed bit number }
    ensures from { pos 0 ≤ℤ (result +ℤ pos 240) }
    ensures to { result ≤ℤ pos 240 }
{
    if bit == 0 { number } else { -number }
}

/// The sums of a coder.
#[inline(always)]
fn excess_of<T: Copy>(excesses: &Excesses<T>, e: usize) -> Excess<T>
    requires { e < LANES }
    ensures { (other : T) → result ≡ excess_or excesses.now e other }
{
    Excess {
        far: excesses.far[e],
        near: excesses.near[e],
        other_near: excesses.other_near[e],
        both: excesses.both[e],
        other_both: excesses.other_both[e],
    }
}

/// Writes the sums of a coder.
#[inline(always)]
fn put_excess<T: Drop>(more: Excess<T>, e: usize, excesses: &mut Excesses<T>)
    requires { e < LANES }
    ensures written { (other : T) → excess_or excesses.new e other ≡ more }
    ensures others { (k : ℕ) (other : T) → k ≢ e → excess_or excesses.new k other ≡ excess_or excesses.old k other }
{
    excesses.far[e] = more.far;
    excesses.near[e] = more.near;
    excesses.other_near[e] = more.other_near;
    excesses.both[e] = more.both;
    excesses.other_both[e] = more.other_both;
}

/// Where the path of a coder stands.
#[inline(always)]
fn lane_of(told: &Told, e: usize) -> Lane
    requires { e < LANES }
    ensures { result ≡ lane_at told.now e }
{
    Lane {
        former: told.former[e],
        q1: told.q1[e],
        q0: told.q0[e],
        more: excess_of(&told.more, e),
    }
}

/// Writes where the path of a coder stands.
#[inline(always)]
fn put_lane(lane: &Lane, e: usize, told: &mut Told)
    requires { e < LANES }
    ensures written { lane_at told.new e ≡ lane.now }
    ensures others { (k : ℕ) → k ≢ e → lane_at told.new k ≡ lane_at told.old k }
{
    told.former[e] = lane.former;
    told.q1[e] = lane.q1;
    told.q0[e] = lane.q0;
    put_excess(lane.more, e, &mut told.more);
}

/// Adds the sums of a segment to those of the segments before, and begins them anew.
fn add(told: &mut Told, totals: &mut Excesses<i32>)
    requires lanes { (e : ℕ) → e < LANES → IsLane SEGMENT_ROUNDS (lane_at told.old e) }
    requires totals { (e : ℕ) → e < LANES
        → IsWithin (SEGMENT_ROUNDS * (FIELD_PACKETS - 1)) (excess_at totals.old e) }
    ensures totals { (e : ℕ) → e < LANES
        → excess_at totals.new e ≡ excess_with (excess_at totals.old e) (lane_at told.old e).more }
    ensures lanes { (e : ℕ) → e < LANES → lane_at told.new e ≡ emptied (lane_at told.old e) }
{
    for e in 0..LANES {
        let more = excess_of(&told.more, e);
        put_excess(excess_with(excess_of(totals, e), more), e, totals);
    }
    told.more = alike(0);
}

/// The sums of a segment, which has an odd number of steps, with those of the steps before them.
#[inline(always)]
fn excess_with(total: Excess<i32>, more: Excess<i16>) -> Excess<i32>
    requires total { IsWithin (SEGMENT_ROUNDS * (FIELD_PACKETS - 1)) total }
    requires more { IsWithin SEGMENT_ROUNDS more }
    ensures { result ≡ excess_with total more }
{
    Excess {
        far: total.far + more.far as i32,
        near: total.other_near + more.near as i32,
        other_near: total.near + more.other_near as i32,
        both: total.other_both + more.both as i32,
        other_both: total.both + more.other_both as i32,
    }
}

/// The sums of weights of each coder, up to a number that is the same from each beginning.
fn all_sums(segments: usize, totals: &Excesses<i32>) -> [[[u32; 4]; 2]; CODERS]
    requires totals { (e : ℕ) → e < LANES → IsWithin (SEGMENT_ROUNDS * FIELD_PACKETS) (excess_at totals.now e) }
    ensures { (e p a b : ℕ) → e < CODERS → p < 2 → a < 2 → b < 2
        → pos (cost_at (slice_index_or result e []) p (2 * a + b))
        ≡ (pos 1_000_000_000 -ℤ less_by p a b (from_beginning segments (excess_at totals.now e))) }
{
    let mut sums = [[[0; 4]; 2]; CODERS];
    for e in 0..CODERS {
        sums[e] = coder_sums(from_beginning(segments, excess_of(totals, e)));
    }
    sums
}

/// The sums with `near` over the steps that are an even number of steps behind the beginning.
fn from_beginning(segments: usize, more: Excess<i32>) -> Excess<i32>
    ensures { result ≡ from_beginning segments more }
{
    if segments % 2 == 0 {
        more
    } else {
        Excess {
            far: more.far,
            near: more.other_near,
            other_near: more.near,
            both: more.other_both,
            other_both: more.both,
        }
    }
}

/// The sums of weights of a coder.
fn coder_sums(more: Excess<i32>) -> [[u32; 4]; 2]
    requires { IsWithin (SEGMENT_ROUNDS * FIELD_PACKETS) more }
    ensures { (p a b : ℕ) → p < 2 → a < 2 → b < 2
        → pos (cost_at result p (2 * a + b)) ≡ (pos 1_000_000_000 -ℤ less_by p a b more) }
{
    [
        [
            sum_by(0, 0, 0, &more),
            sum_by(0, 0, 1, &more),
            sum_by(0, 1, 0, &more),
            sum_by(0, 1, 1, &more),
        ],
        [
            sum_by(1, 0, 0, &more),
            sum_by(1, 0, 1, &more),
            sum_by(1, 1, 0, &more),
            sum_by(1, 1, 1, &more),
        ],
    ]
}

/// The sum of weights from one beginning. It has another Z2 than that of the path that was followed where p is 1,
/// another q1 where a is 1, and another q0 where b is 1.
fn sum_by(p: u8, a: u8, b: u8, more: &Excess<i32>) -> u32
    requires { IsWithin (SEGMENT_ROUNDS * FIELD_PACKETS) more.now }
    ensures { pos result ≡ (pos 1_000_000_000 -ℤ less_by p a b more.now) }
{
    (1_000_000_000 - less_by(p, a, b, more)) as u32
}

/// What the path from that beginning weighs less.
fn less_by(p: u8, a: u8, b: u8, more: &Excess<i32>) -> i32
    requires { IsWithin (SEGMENT_ROUNDS * FIELD_PACKETS) more.now }
    ensures less { result ≡ less_by p a b more.now }
    ensures from { pos 0 ≤ℤ (result +ℤ pos 1_000_000_000) }
    ensures to { result ≤ℤ pos 1_000_000_000 }
{
    if_bit(p, less_with_z2(a, b, more)) + less_beside(a, b, more)
}

/// What it weighs less since Z2 is another one.
fn less_with_z2(a: u8, b: u8, more: &Excess<i32>) -> i32
    requires { IsWithin (SEGMENT_ROUNDS * FIELD_PACKETS) more.now }
    ensures less { result ≡ less_with_z2 a b more.now }
    ensures from { pos 0 ≤ℤ (result +ℤ pos 420_000_000) }
    ensures to { result ≤ℤ pos 420_000_000 }
{
    let both = if_bit(a, 32 * more.both) + if_bit(b, 32 * more.other_both);
    16 * more.far - both
}

/// What it weighs less since Z0 is another one.
fn less_beside(a: u8, b: u8, more: &Excess<i32>) -> i32
    requires { IsWithin (SEGMENT_ROUNDS * FIELD_PACKETS) more.now }
    ensures less { result ≡ less_beside a b more.now }
    ensures from { pos 0 ≤ℤ (result +ℤ pos 42_000_000) }
    ensures to { result ≤ℤ pos 42_000_000 }
{
    if_bit(a, 4 * more.near) + if_bit(b, 4 * more.other_near)
}

/// A number where a bit is 1, and else 0.
fn if_bit(bit: u8, number: i32) -> i32
    ensures { result ≡ if_bit bit number }
{
    if bit == 0 { 0 } else { number }
}
