//! The columns of up to sixteen places at a time. Tiles of up to sixteen rows are turned into columns, and back.

ghost use Rattle.std.specs.Prelude.{◌≡◌, ℕ, ◌+◌, ◌*◌, ◌/◌, ◌%◌, ◌<◌, ◌≤◌, ◌⊎◌, length, take, slice_index};
ghost use Rattle.dtx_spread.specs.Tiles.{IsTile, byte_at};

use crate::tiles::turned;
use std::simd::prelude::*;

/// The number of rows for which a column has room.
pub(crate) const ROWS: usize = 560;

/// Copies the bytes of `W` places of `count` rows into their columns, from row `at` on.
#[inline(always)]
pub(crate) fn take_rows<const B: usize, const W: usize>(
    bytes: &[u8],
    place: usize,
    count: usize,
    columns: &mut [u8],
    at: usize,
)
    requires numbers { (B ≤ 64) × (W ≤ 16) × (place + W ≤ B) }
    requires rows { (count ≤ 16) × (count * B + place + W ≤ length bytes.now + B) }
    requires columns { length columns.old ≡ 16 * ROWS }
    requires room { at + 16 ≤ ROWS }
    ensures taken { (c r : ℕ) → c < W → r < count
        → slice_index columns.new (c * 560 + at + r) ≡ slice_index bytes.now (place + c + r * B) }
    ensures others { (c r : ℕ) → r < 560 → (r < at) ⊎ (at + 16 ≤ r)
        → slice_index columns.new (c * 560 + r) ≡ slice_index columns.old (c * 560 + r) }
{
    put_columns::<W>(&turned(&rows_at::<B, W>(bytes, place, count)), columns, at);
}

/// Copies what leaves the columns, from row `at` on, to `W` places of `count` rows.
#[inline(always)]
pub(crate) fn put_rows<const B: usize, const W: usize>(
    columns: &[u8],
    at: usize,
    bytes: &mut [u8],
    place: usize,
    count: usize,
)
    requires numbers { (B ≤ 64) × (W ≤ 16) × (place + W ≤ B) }
    requires rows { (count ≤ 16) × (count * B + place + W ≤ length bytes.old + B) }
    requires columns { length columns.now ≡ 16 * ROWS }
    requires room { at + 16 ≤ ROWS }
    ensures put { (c r : ℕ) → c < W → r < count
        → slice_index bytes.new (place + c + r * B) ≡ slice_index columns.now (c * 560 + at + r) }
    ensures others { (i : ℕ) → (i % B < place) ⊎ (place + W ≤ i % B)
        → slice_index bytes.new i ≡ slice_index bytes.old i }
{
    put_tile::<B, W>(&turned(&columns_at(columns, at)), bytes, place, count);
}

/// The bytes of `W` places of `count` rows.
#[inline(always)]
pub(crate) fn rows_at<const B: usize, const W: usize>(
    bytes: &[u8],
    place: usize,
    count: usize,
) -> [u8x16; 16]
    requires numbers { (B ≤ 64) × (W ≤ 16) }
    requires rows { (count ≤ 16) × (count * B + place + W ≤ length bytes.now + B) }
    ensures tile { IsTile result }
    ensures rows { (r c : ℕ) → r < count → c < W → byte_at result r c ≡ slice_index bytes.now (place + c + r * B) }
{
    let mut rows = [u8x16::splat(0); 16];
    for r in 0..count {
        rows[r] = front::<W>(&bytes[place + r * B..]);
    }
    rows
}

/// Sixteen bytes, the first `W` of which are those of the slice. If the slice has sixteen bytes, all are.
#[inline(always)]
fn front<const W: usize>(bytes: &[u8]) -> u8x16
    requires wide { W ≤ 16 }
    requires bytes { W ≤ length bytes.now }
    ensures long { length result ≡ 16 }
    ensures front { (c : ℕ) → c < W → slice_index result c ≡ slice_index bytes.now c }
{
    if W == 16 || bytes.len() >= 16 {
        return u8x16::from_slice(bytes);
    }
    let mut whole = [0u8; 16];
    whole[..W].copy_from_slice(&bytes[..W]);
    u8x16::from_array(whole)
}

/// Copies the rows of a tile into columns, from row `at` on.
#[inline(always)]
fn put_columns<const W: usize>(tile: &[u8x16; 16], columns: &mut [u8], at: usize)
    requires wide { W ≤ 16 }
    requires tile { IsTile tile.now }
    requires columns { length columns.old ≡ 16 * ROWS }
    requires room { at + 16 ≤ ROWS }
    ensures put { (c r : ℕ) → c < W → r < 16 → slice_index columns.new (c * 560 + at + r) ≡ byte_at tile.now c r }
    ensures others { (c r : ℕ) → r < 560 → (r < at) ⊎ (at + 16 ≤ r)
        → slice_index columns.new (c * 560 + r) ≡ slice_index columns.old (c * 560 + r) }
{
    for c in 0..W {
        tile[c].copy_to_slice(&mut columns[c * ROWS + at..]);
    }
}

/// Sixteen bytes of each column, from row `at` on.
#[inline(always)]
fn columns_at(columns: &[u8], at: usize) -> [u8x16; 16]
    requires columns { length columns.now ≡ 16 * ROWS }
    requires room { at + 16 ≤ ROWS }
    ensures tile { IsTile result }
    ensures columns { (c r : ℕ) → c < 16 → r < 16 → byte_at result c r ≡ slice_index columns.now (c * 560 + at + r) }
{
    let mut tile = [u8x16::splat(0); 16];
    for c in 0..16 {
        tile[c] = u8x16::from_slice(&columns[c * ROWS + at..]);
    }
    tile
}

/// Copies `W` bytes of `count` rows of a tile to their places.
#[inline(always)]
fn put_tile<const B: usize, const W: usize>(
    tile: &[u8x16; 16],
    bytes: &mut [u8],
    place: usize,
    count: usize,
)
    requires numbers { (B ≤ 64) × (W ≤ 16) × (place + W ≤ B) }
    requires tile { IsTile tile.now }
    requires rows { (count ≤ 16) × (count * B + place + W ≤ length bytes.old + B) }
    ensures put { (c r : ℕ) → c < W → r < count
        → slice_index bytes.new (place + c + r * B) ≡ byte_at tile.now r c }
    ensures others { (i : ℕ) → (i % B < place) ⊎ (place + W ≤ i % B)
        → slice_index bytes.new i ≡ slice_index bytes.old i }
{
    for r in 0..count {
        put_front::<W>(tile[r], &mut bytes[place + r * B..place + r * B + W]);
    }
}

/// Copies the first `W` bytes of a row.
#[inline(always)]
fn put_front<const W: usize>(row: u8x16, bytes: &mut [u8])
    requires wide { W ≤ 16 }
    requires row { length row ≡ 16 }
    requires bytes { length bytes.old ≡ W }
    ensures { bytes.new ≡ take W row }
{
    if W == 16 {
        row.copy_to_slice(bytes);
        return;
    }
    bytes.copy_from_slice(&row.to_array()[..W]);
}
