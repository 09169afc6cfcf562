//! Passes calls of fewer than sixteen rows: all columns at once, sixteen bytes apart.

ghost use Rattle.std.specs.Prelude.{◌≡◌, ℕ, ◌+◌, ◌*◌, ◌/◌, ◌%◌, ◌<◌, ◌≤◌, length, slice_index};
ghost use Rattle.dtx_spread.specs.Rings.{lists_of, ArePassed};
ghost use Rattle.dtx_spread.specs.Tiles.{IsTile, byte_at};

use crate::columns::rows_at;
use crate::rings::{Places, Rows, exchange_columns};
use crate::scratch::Columns;
use crate::tiles::turned;
use circular_buffer::HeapCircularBuffer;
use std::simd::prelude::*;

/// Replaces the bytes of fewer than sixteen rows by those that leave. The first byte comes to ring `next`.
pub(crate) fn pass_few<const B: usize>(
    rings: &mut [HeapCircularBuffer<u8>],
    next: usize,
    bytes: &mut [u8],
    columns: &mut Columns,
)
    requires numbers { (B ≤ 64) × (next < B) }
    requires rings { length rings.old ≡ B }
    requires few { length bytes.old < 16 * B }
    ensures passed { ArePassed B next 0 B (lists_of rings.old) (lists_of rings.new) bytes.old bytes.new }
    ensures rings { length rings.new ≡ B }
{
    let len = bytes.len();
    let places = Places {
        next,
        first: 0,
        width: B,
    };
    let rows = Rows {
        whole: len / B,
        rest: len % B,
        stride: 16,
    };
    columns.rows[..len].copy_from_slice(bytes);
    take_places::<B>(&columns.rows, &mut columns.come);
    exchange_columns(rings, places, rows, &columns.come, &mut columns.gone);
    put_places::<B>(&columns.gone, &mut columns.rows);
    bytes.copy_from_slice(&columns.rows[..len]);
}

/// Copies sixteen rows into the columns of their places.
#[inline(always)]
fn take_places<const B: usize>(rows: &[u8], columns: &mut [u8])
    requires numbers { (0 < B) × (B ≤ 64) }
    requires room { (length rows.now ≡ 1024) × (1024 ≤ length columns.old) }
    ensures { (p r : ℕ) → p < B → r < 16
        → slice_index columns.new (p * 16 + r) ≡ slice_index rows.now (p + r * B) }
{
    for t in 0..(B + 15) / 16 {
        let tile = turned(&rows_at::<B, 16>(rows, 16 * t, 16));
        put_flat(&tile, &mut columns[256 * t..256 * t + 256]);
    }
}

/// Copies the columns of all places into sixteen rows. The last places come first, since a row's last sixteen bytes
/// may reach into the next row.
#[inline(always)]
fn put_places<const B: usize>(columns: &[u8], rows: &mut [u8])
    requires numbers { (0 < B) × (B ≤ 64) }
    requires room { (1024 ≤ length columns.now) × (length rows.old ≡ 1024) }
    ensures { (p r : ℕ) → p < B → r < 16
        → slice_index rows.new (p + r * B) ≡ slice_index columns.now (p * 16 + r) }
{
    let tiles = (B + 15) / 16;
    for t in 0..tiles {
        let from = tiles - 1 - t;
        let tile = turned(&flat(&columns[256 * from..256 * from + 256]));
        put_over::<B>(&tile, rows, 16 * from);
    }
}

/// Copies the rows of a tile one behind the other.
#[inline(always)]
fn put_flat(tile: &[u8x16; 16], bytes: &mut [u8])
    requires tile { IsTile tile.now }
    requires long { length bytes.old ≡ 256 }
    ensures { (c r : ℕ) → c < 16 → r < 16 → slice_index bytes.new (c * 16 + r) ≡ byte_at tile.now c r }
{
    for c in 0..16 {
        tile[c].copy_to_slice(&mut bytes[c * 16..]);
    }
}

/// The tile whose rows stand one behind the other.
#[inline(always)]
fn flat(bytes: &[u8]) -> [u8x16; 16]
    requires long { length bytes.now ≡ 256 }
    ensures tile { IsTile result }
    ensures bytes { (c r : ℕ) → c < 16 → r < 16 → byte_at result c r ≡ slice_index bytes.now (c * 16 + r) }
{
    let mut tile = [u8x16::splat(0); 16];
    for c in 0..16 {
        tile[c] = u8x16::from_slice(&bytes[c * 16..]);
    }
    tile
}

/// Copies the rows of a tile to their places. A row may reach into the places in front of them in the next row.
#[inline(always)]
fn put_over<const B: usize>(tile: &[u8x16; 16], rows: &mut [u8], place: usize)
    requires numbers { (B ≤ 64) × (place < B) }
    requires tile { IsTile tile.now }
    requires room { 15 * B + place + 16 ≤ length rows.old }
    ensures put { (c r : ℕ) → c < 16 → place + c < B → r < 16
        → slice_index rows.new (place + c + r * B) ≡ byte_at tile.now r c }
    ensures others { (p r : ℕ) → place + 16 ≤ p → p < B → r < 16
        → slice_index rows.new (p + r * B) ≡ slice_index rows.old (p + r * B) }
{
    for r in 0..16 {
        tile[r].copy_to_slice(&mut rows[place + r * B..]);
    }
}
