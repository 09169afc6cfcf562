//! Passes the bytes of some places of a call, by columns. A call has whole tiles of sixteen rows, and fewer rows behind
//! them.

ghost use Rattle.std.specs.Prelude.{◌≡◌, ℕ, ◌+◌, ◌-◌, ◌*◌, ◌/◌, ◌%◌, ◌<◌, ◌≤◌, ◌⊎◌, length, slice_index};
ghost use Rattle.dtx_spread.specs.Rings.{lists_of, count_at, IsEven, ArePassed};

use crate::columns::{ROWS, put_rows, take_rows};
use crate::rings::{Places, Rows, count_at, exchange_columns};
use crate::scratch::Columns;
use circular_buffer::HeapCircularBuffer;

/// Passes the bytes of `W` places, from `place` on. The same number of bytes comes to each of them. The byte at place 0
/// comes to ring `next`.
#[inline(never)]
pub(crate) fn pass_group<const B: usize, const W: usize>(
    rings: &mut [HeapCircularBuffer<u8>],
    next: usize,
    place: usize,
    bytes: &mut [u8],
    columns: &mut Columns,
)
    requires numbers { (B ≤ 64) × (next < B) }
    requires places { (W ≤ 16) × (place + W ≤ B) }
    requires even { IsEven B place W (length bytes.old) }
    requires rings { length rings.old ≡ B }
    requires room { length bytes.old < ROWS * B }
    ensures passed { ArePassed B next place (place + W) (lists_of rings.old) (lists_of rings.new) bytes.old bytes.new }
    ensures rings { length rings.new ≡ B }
{
    let places = Places {
        next,
        first: place,
        width: W,
    };
    let rows = Rows {
        whole: bytes.len() / B,
        rest: bytes.len() % B,
        stride: ROWS,
    };
    let come = &mut columns.come[..];
    let gone = &mut columns.gone[..];
    gather::<B, W>(bytes, place, come);
    exchange_columns(rings, places, rows, come, gone);
    scatter::<B, W>(gone, place, bytes);
}

/// Copies the bytes of `W` places into their columns.
#[inline(always)]
fn gather<const B: usize, const W: usize>(bytes: &[u8], place: usize, columns: &mut [u8])
    requires numbers { (0 < B) × (B ≤ 64) × (W ≤ 16) × (place + W ≤ B) }
    requires even { IsEven B place W (length bytes.now) }
    requires room { length bytes.now < ROWS * B }
    requires columns { length columns.old ≡ 16 * ROWS }
    ensures { (c k : ℕ) → c < W → k < count_at B (length bytes.now) place
        → slice_index columns.new (c * 560 + k) ≡ slice_index bytes.now (place + c + k * B) }
{
    let tiles = bytes.len() / (16 * B);
    for t in 0..tiles {
        let tile = &bytes[t * 16 * B..t * 16 * B + 16 * B];
        take_rows::<B, W>(tile, place, 16, columns, t * 16);
    }
    take_last::<B, W>(&bytes[tiles * 16 * B..], place, columns, tiles * 16);
}

/// Copies the bytes behind whole tiles. The numbers of rows that a group of four packets leaves have calls of their
/// own, in which the compiler has them as constants.
#[inline(always)]
fn take_last<const B: usize, const W: usize>(
    bytes: &[u8],
    place: usize,
    columns: &mut [u8],
    at: usize,
)
    requires numbers { (0 < B) × (B ≤ 64) × (W ≤ 16) × (place + W ≤ B) }
    requires even { IsEven B place W (length bytes.now) }
    requires few { length bytes.now < 16 * B }
    requires columns { length columns.old ≡ 16 * ROWS }
    requires room { at + 16 ≤ ROWS }
    ensures taken { (c r : ℕ) → c < W → r < count_at B (length bytes.now) place
        → slice_index columns.new (c * 560 + at + r) ≡ slice_index bytes.now (place + c + r * B) }
    ensures others { (c r : ℕ) → r < 560 → (r < at) ⊎ (at + 16 ≤ r)
        → slice_index columns.new (c * 560 + r) ≡ slice_index columns.old (c * 560 + r) }
{
    let count = count_at::<B>(bytes.len(), place);
    if count == 16 {
        take_rows::<B, W>(bytes, place, 16, columns, at);
    } else if count == 15 {
        take_rows::<B, W>(bytes, place, 15, columns, at);
    } else {
        take_rows::<B, W>(bytes, place, count, columns, at);
    }
}

/// Copies what leaves the columns of `W` places to these places.
#[inline(always)]
fn scatter<const B: usize, const W: usize>(columns: &[u8], place: usize, bytes: &mut [u8])
    requires numbers { (0 < B) × (B ≤ 64) × (W ≤ 16) × (place + W ≤ B) }
    requires even { IsEven B place W (length bytes.old) }
    requires room { length bytes.old < ROWS * B }
    requires columns { length columns.now ≡ 16 * ROWS }
    ensures put { (c k : ℕ) → c < W → k < count_at B (length bytes.old) place
        → slice_index bytes.new (place + c + k * B) ≡ slice_index columns.now (c * 560 + k) }
    ensures others { (i : ℕ) → (i % B < place) ⊎ (place + W ≤ i % B)
        → slice_index bytes.new i ≡ slice_index bytes.old i }
{
    let tiles = bytes.len() / (16 * B);
    for t in 0..tiles {
        let tile = &mut bytes[t * 16 * B..t * 16 * B + 16 * B];
        put_rows::<B, W>(columns, t * 16, tile, place, 16);
    }
    put_last::<B, W>(columns, tiles * 16, &mut bytes[tiles * 16 * B..], place);
}

/// Copies what leaves to the bytes behind whole tiles.
#[inline(always)]
fn put_last<const B: usize, const W: usize>(
    columns: &[u8],
    at: usize,
    bytes: &mut [u8],
    place: usize,
)
    requires numbers { (0 < B) × (B ≤ 64) × (W ≤ 16) × (place + W ≤ B) }
    requires even { IsEven B place W (length bytes.old) }
    requires few { length bytes.old < 16 * B }
    requires columns { length columns.now ≡ 16 * ROWS }
    requires room { at + 16 ≤ ROWS }
    ensures put { (c r : ℕ) → c < W → r < count_at B (length bytes.old) place
        → slice_index bytes.new (place + c + r * B) ≡ slice_index columns.now (c * 560 + at + r) }
    ensures others { (i : ℕ) → (i % B < place) ⊎ (place + W ≤ i % B)
        → slice_index bytes.new i ≡ slice_index bytes.old i }
{
    let count = count_at::<B>(bytes.len(), place);
    if count == 16 {
        put_rows::<B, W>(columns, at, bytes, place, 16);
    } else if count == 15 {
        put_rows::<B, W>(columns, at, bytes, place, 15);
    } else {
        put_rows::<B, W>(columns, at, bytes, place, count);
    }
}
