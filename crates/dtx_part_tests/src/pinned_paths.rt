//! A segment whose least paths under pins were found by trying all: each coder has six symbols of its own, and the pins
//! behind them leave one way on. And the same segment where all pairs are known, so that one way is left from each of
//! eight beginnings.

ghost use Rattle.std.specs.Prelude.{◌≡◌, ◌<◌, length};

use crate::expect::expect_none;
use dtx_pins::Pinned;
use dtx_sizes::{CODERS, SEGMENT, SEGMENT_ROUNDS, SEGMENT_SYNC};

/// Steps in a unit.
const SCALE: u8 = 8;

/// The first six symbols of each coder. All others are 0.
static SYMBOLS: [[i8; 6]; CODERS] = [
    [16, -16, 16, 16, -16, -16],
    [-121, -96, -98, -110, -31, -5],
    [30, -28, -20, 37, -31, 5],
    [-12, 30, -10, -7, -51, 12],
    [16, 8, 24, -16, 8, 16],
    [-21, -33, 73, -77, -107, -54],
    [-13, 19, -2, -44, 15, 1],
    [52, 1, 17, -50, -7, -54],
    [8, 8, 16, -16, 24, -16],
    [-61, -81, 57, -58, 102, 41],
    [-20, -43, -51, -51, -3, 9],
    [13, -59, 19, 24, -12, -12],
];

/// The pins of these steps. Those of the later steps are (t + e) modulo 4, at step t of coder e.
static PINS: [[u16; 6]; CODERS] = [
    [255, 4, 255, 4, 255, 4],
    [255, 1, 255, 0, 2, 0],
    [3, 0, 2, 0, 4, 0],
    [2, 2, 3, 0, 0, 3],
    [4, 255, 255, 4, 255, 4],
    [2, 2, 255, 0, 1, 2],
    [3, 4, 2, 4, 1, 1],
    [0, 2, 3, 3, 1, 0],
    [255, 4, 4, 255, 4, 255],
    [4, 4, 2, 4, 0, 2],
    [3, 4, 2, 3, 255, 4],
    [0, 0, 3, 3, 3, 0],
];

/// What the symbols have to become, at scale 1. The numbers were found at the scale: these are an eighth of them.
static DECIDED: [[i8; 6]; CODERS] = [
    [1, -3, 3, 1, -1, -1],
    [-7, -3, -5, -7, 3, 1],
    [-1, -5, 3, 3, -5, -5],
    [1, -7, 5, 3, 1, -1],
    [1, 1, 1, -3, -1, -1],
    [-5, 1, -1, -5, -1, 1],
    [-1, 1, -5, -3, -3, -1],
    [1, -5, 5, -3, -1, -5],
    [1, 3, 1, -1, 3, -1],
    [-5, -7, 3, -7, -5, 1],
    [-3, -7, 1, -3, -1, -5],
    [1, 3, -3, 5, -1, -5],
];

/// The sum of the costs of the twelve paths.
const COST: u64 = 452_836;

/// What they have to become where all pairs are known: `PINS` modulo 4 at the first six steps.
static TOLD: [[i8; 6]; CODERS] = [
    [-3, -5, 5, 1, -3, -5],
    [5, 7, -1, -7, 3, 1],
    [7, 3, -5, -5, -5, -5],
    [1, -7, 5, 3, 1, -1],
    [3, -1, 5, 1, -3, -5],
    [-5, 1, -1, -5, -1, 1],
    [5, 1, -7, -7, -3, -1],
    [1, -5, 5, -3, -1, -5],
    [-3, -5, -7, 7, 3, -1],
    [3, 1, -5, -7, -5, 1],
    [5, 1, -7, 5, -1, -5],
    [1, 3, -3, 5, -1, -5],
];

/// The sum of the costs of these paths.
const TOLD_COST: u64 = 560_196;

/// Where coder `e` has its symbol of step `t`, in the first segment of a field.
fn place(t: usize, e: usize) -> usize
    requires step { t < SEGMENT_ROUNDS }
    requires coder { e < CODERS }
    ensures { result < SEGMENT }
{
    SEGMENT_SYNC + CODERS * t + e
}

fn segment() -> [i8; SEGMENT] {
    let mut segment = [0; SEGMENT];
    for e in 0..CODERS {
        for t in 0..6 {
            segment[place(t, e)] = SYMBOLS[e][t];
        }
    }
    segment
}

/// The pins, each of the first six steps modulo `divisor`.
fn pins(divisor: u16) -> [[u16; CODERS]; SEGMENT_ROUNDS]
    requires { 0 < divisor }
{
    let mut pins = [[0; CODERS]; SEGMENT_ROUNDS];
    for t in 0..SEGMENT_ROUNDS {
        for e in 0..CODERS {
            pins[t][e] = if t < 6 {
                PINS[e][t] % divisor
            } else {
                ((t + e) % 4) as u16
            };
        }
    }
    pins
}

/// The first coder of which a symbol has not become what it should.
fn first_wrong(segment: &[i8; SEGMENT], symbols: &[[i8; 6]; CODERS]) -> Option<usize> {
    for e in 0..CODERS {
        for t in 0..6 {
            if segment[place(t, e)] != symbols[e][t] {
                return Some(e);
            }
        }
    }
    None
}

/// The coder that is wrong, or their number where the sum of the costs is, or how many symbols move: all, since none of
/// them is 0.
fn wrong(pins: &mut [[u16; CODERS]], symbols: &[[i8; 6]; CODERS], cost: u64) -> Option<usize>
    requires { length pins.old ≡ SEGMENT_ROUNDS }
{
    let mut decided = [[0; SEGMENT]];
    let decision = Pinned::scaled(SCALE).field(pins, &[segment()], &mut decided[..]);
    if decision.cost != cost || decision.moved != (SEGMENT - SEGMENT_SYNC) as u64 {
        return Some(CODERS);
    }
    first_wrong(&decided[0], symbols)
}

#[test]
fn least_paths_under_pins_are_found_and_the_first_of_equal_ones(rt: HostRuntime) {
    expect_none(&rt, wrong(&mut pins(256)[..], &DECIDED, COST));
}

#[test]
fn where_all_pairs_are_known_the_best_of_eight_beginnings_is_found(rt: HostRuntime) {
    expect_none(&rt, wrong(&mut pins(4)[..], &TOLD, TOLD_COST));
}
