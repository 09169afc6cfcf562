//! Five symbols at a time, whose least paths were found by trying all.

use crate::expect::{expect, expect_none};
use dtx_soft::{MAX_SCALE, Soft, proves};
use std::alloc::Global;

/// The least path over five symbols: its cost, its start and its levels, and the least cost from each state.
type Least = (u32, u8, [u8; 5], [u32; 4]);

/// Whether that is the least path over these symbols.
fn is_least(soft: &mut Soft, symbols: &[i8; 5], path: &Least) -> bool {
    let mut levels = [0; 5];
    let found = soft.best(&symbols[..], &mut levels[..]);
    found.cost == path.0
        && found.start == path.1
        && levels == path.2
        && soft.potentials().first() == Some(&path.3)
}

/// How many steps a unit has, symbols, and their least path.
type Row = (u8, [i8; 5], Least);

/// Of equal paths the first in order is taken. The fourth and the fifth are of any bytes.
static ROWS: [Row; 7] = [
    (1, [0; 5], (5, 0, [4; 5], [5; 4])),
    (1, [-4; 5], (5, 0, [2, 1, 2, 2, 1], [5; 4])),
    (1, [-3; 5], (4, 1, [2, 2, 1, 2, 2], [8, 4, 8, 8])),
    (
        1,
        [127, -128, 127, -128, 127],
        (72_970, 2, [7, 1, 7, 0, 7], [74_422, 74_422, 72_970, 72_970]),
    ),
    (
        1,
        [3, -1, -7, 5, 1],
        (4, 3, [5, 3, 0, 5, 4], [12, 12, 8, 4]),
    ),
    (
        3,
        [1, -5, 14, -20, 8],
        (47, 0, [4, 2, 5, 0, 5], [47, 59, 47, 83]),
    ),
    (
        18,
        [127, -128, 0, 36, -36],
        (977, 3, [7, 0, 3, 5, 3], [3785, 2345, 2417, 977]),
    ),
];

/// Whether a decoder of that scale finds the least path.
fn is_found(alloc: Global, row: &Row) -> bool {
    let (scale, symbols, path) = row;
    match Soft::scaled(alloc, (*scale).min(MAX_SCALE)) {
        Ok(mut soft) => is_least(&mut soft, symbols, path),
        Err(_) => false,
    }
}

#[test]
fn least_paths_are_found_over_any_bytes_at_any_scale_and_the_first_of_equal_ones(rt: HostRuntime) {
    for i in 0..ROWS.len() {
        expect(&rt, is_found(rt.alloc(), &ROWS[i]), i);
    }
}

/// A path over the symbols -3 and 2, its potentials, and whether these prove it. Two paths cost 1, one from state 0 and
/// one from state 1.
const PROOFS: [(u8, [u8; 2], [[u32; 4]; 3], bool); 5] = [
    (0, [2, 5], [[1, 1, 5, 5], [1; 4], [0; 4]], true),
    (1, [2, 4], [[1, 1, 5, 5], [1; 4], [0; 4]], true),
    (0, [2, 4], [[1, 1, 5, 5], [1; 4], [0; 4]], false),
    (0, [2, 5], [[1, 2, 5, 5], [1; 4], [0; 4]], false),
    (0, [2, 5], [[1, 1, 5, 5], [1; 4], [0, 0, 0, 1]], false),
];

fn first_wrong_proof() -> Option<usize> {
    for (row, (start, levels, potentials, proved)) in PROOFS.iter().enumerate() {
        if proves(&[-3, 2], *start, levels, potentials) != *proved {
            return Some(row);
        }
    }
    None
}

#[test]
fn potentials_prove_least_paths_alone(rt: HostRuntime) {
    expect_none(&rt, first_wrong_proof());
}
