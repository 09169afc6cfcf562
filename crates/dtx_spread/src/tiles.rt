//! Tiles of sixteen rows of sixteen bytes, turned so that their columns are rows.

ghost use Rattle.std.specs.Prelude.{◌≡◌, ℕ, ◌+◌, ◌*◌, ◌/◌, ◌%◌, ◌<◌, ◌==◌, if◌then◌else◌, length, slice_index};
ghost use Rattle.dtx_spread.specs.Tiles.{IsTile, byte_at};

use std::simd::prelude::*;

/// Turns a tile: each row becomes the column of its number.
#[inline(always)]
pub(crate) fn turned(tile: &[u8x16; 16]) -> [u8x16; 16]
    requires { IsTile tile.now }
    ensures tile { IsTile result }
    ensures turned { (i j : ℕ) → i < 16 → j < 16 → byte_at result i j ≡ byte_at tile.now j i }
{
    shuffled(&shuffled(&shuffled(&shuffled(tile))))
}

/// Takes the rows of the two halves in turn, byte by byte. A byte's place has eight bits, the row's before the
/// column's, and a shuffle turns them by one. So four shuffles exchange row and column.
#[inline(always)]
fn shuffled(tile: &[u8x16; 16]) -> [u8x16; 16]
    requires { IsTile tile.now }
    ensures tile { IsTile result }
    ensures shuffled { (i j : ℕ) → i < 16 → j < 16
        → byte_at result i j ≡ byte_at tile.now (i / 2 + 8 * (j % 2)) (8 * (i % 2) + j / 2) }
{
    let mut rows = [u8x16::splat(0); 16];
    for i in 0..8 {
        rows[2 * i] = low(tile[i], tile[i + 8]);
        rows[2 * i + 1] = high(tile[i], tile[i + 8]);
    }
    rows
}

/// The first halves of two rows, taken in turn.
#[inline(always)]
fn low(a: u8x16, b: u8x16) -> u8x16
    requires { length a ≡ 16 }
    ensures long { length result ≡ 16 }
    ensures low { (j : ℕ) → j < 16 → slice_index result j ≡ slice_index (if j % 2 == 0 then a else b) (j / 2) }
{
    a.shuffle(b, [0, 16, 1, 17, 2, 18, 3, 19, 4, 20, 5, 21, 6, 22, 7, 23])
}

/// The second halves of two rows, taken in turn.
#[inline(always)]
fn high(a: u8x16, b: u8x16) -> u8x16
    requires { length a ≡ 16 }
    ensures long { length result ≡ 16 }
    ensures high { (j : ℕ) → j < 16 → slice_index result j ≡ slice_index (if j % 2 == 0 then a else b) (8 + j / 2) }
{
    a.shuffle(
        b,
        [8, 24, 9, 25, 10, 26, 11, 27, 12, 28, 13, 29, 14, 30, 15, 31],
    )
}
