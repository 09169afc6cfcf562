//! Rings to which bytes come in rows.

ghost use Rattle.std.specs.Prelude.{◌≡◌, ℕ, ◌+◌, ◌*◌, ◌%◌, ◌<◌, ◌≤◌, ◌++◌, length, take, drop, replicate, IfOk};
ghost use Rattle.std.specs.Prelude.{slice_index};
ghost use Rattle.circular_buffer.specs.Buffer.{Buffer, buffer};
ghost use Rattle.dtx_spread.specs.Rings.{lists_of, branch_at, count_of, count_at, IsEven, AreExchanged, ArePassed};

use crate::columns::ROWS;
use crate::few::pass_few;
use crate::groups::pass_group;
use crate::moving::move_up;
use crate::scratch::Columns;
use circular_buffer::HeapCircularBuffer;
use std::alloc::{AllocError, Global};
use std::simd::prelude::*;

/// A ring of `count` zeros, which has room for no more bytes. The only error is out of memory.
pub(crate) fn zeros(alloc: Global, count: usize) -> Result<HeapCircularBuffer<u8>, AllocError>
    ensures { IfOk result (λ ring. ring ≡ buffer (replicate count 0) count) }
{
    let mut ring = HeapCircularBuffer::with_capacity(alloc, count)?;
    for _i in 0..count {
        ring.push_back(0);
    }
    Ok(ring)
}

/// `width` places that follow each other, from `first` on. The byte at place 0 comes to ring `next`.
#[derive(Clone, Copy)]
pub(crate) struct Places {
    pub(crate) next: usize,
    pub(crate) first: usize,
    pub(crate) width: usize,
}

/// How many bytes come to each place: `whole`, and one more to each of the first `rest` places. Their columns stand
/// `stride` bytes apart.
#[derive(Clone, Copy)]
pub(crate) struct Rows {
    pub(crate) whole: usize,
    pub(crate) rest: usize,
    pub(crate) stride: usize,
}

/// Replaces the bytes by those that leave. The first byte comes to ring `next`. Fewer than sixteen rows have a way of
/// their own.
pub(crate) fn through<const B: usize>(
    rings: &mut [HeapCircularBuffer<u8>],
    next: usize,
    bytes: &mut [u8],
    columns: &mut Columns,
)
    requires numbers { (B ≤ 64) × (next < B) }
    requires rings { length rings.old ≡ B }
    requires room { length bytes.old < ROWS * B }
    ensures passed { ArePassed B next 0 B (lists_of rings.old) (lists_of rings.new) bytes.old bytes.new }
    ensures rings { length rings.new ≡ B }
{
    if bytes.len() < 16 * B {
        pass_few::<B>(rings, next, bytes, columns);
    } else {
        pass_many::<B>(rings, next, bytes, columns);
    }
}

/// Replaces the bytes by those that leave, for a group of places at a time.
fn pass_many<const B: usize>(
    rings: &mut [HeapCircularBuffer<u8>],
    next: usize,
    bytes: &mut [u8],
    columns: &mut Columns,
)
    requires numbers { (B ≤ 64) × (next < B) }
    requires rings { length rings.old ≡ B }
    requires room { length bytes.old < ROWS * B }
    ensures passed { ArePassed B next 0 B (lists_of rings.old) (lists_of rings.new) bytes.old bytes.new }
    ensures rings { length rings.new ≡ B }
{
    let mut done = 0;
    while done < B {
        done += pass_next::<B>(rings, next, done, bytes, columns);
    }
}

/// Passes the bytes of a group of places from `place` on, and returns how many places these are: 16, 12, 4 or 1. It is
/// the largest of these numbers for which equally many bytes come to each of the places.
fn pass_next<const B: usize>(
    rings: &mut [HeapCircularBuffer<u8>],
    next: usize,
    place: usize,
    bytes: &mut [u8],
    columns: &mut Columns,
) -> usize
    requires numbers { (B ≤ 64) × (next < B) × (place < B) }
    requires rings { length rings.old ≡ B }
    requires room { length bytes.old < ROWS * B }
    ensures some { (0 < result) × (place + result ≤ B) }
    ensures passed { ArePassed B next place (place + result) (lists_of rings.old) (lists_of rings.new) bytes.old
        bytes.new }
    ensures rings { length rings.new ≡ B }
{
    let left = even_from::<B>(bytes.len(), place);
    if left >= 16 {
        pass_group::<B, 16>(rings, next, place, bytes, columns);
        return 16;
    }
    if left >= 12 {
        pass_group::<B, 12>(rings, next, place, bytes, columns);
        return 12;
    }
    if left >= 4 {
        pass_group::<B, 4>(rings, next, place, bytes, columns);
        return 4;
    }
    pass_group::<B, 1>(rings, next, place, bytes, columns);
    1
}

/// The number of places, from `place` on, to which equally many of `len` bytes come.
fn even_from<const B: usize>(len: usize, place: usize) -> usize
    requires below { place < B }
    ensures some { 0 < result }
    ensures even { (w : ℕ) → w ≤ result → (place + w ≤ B) × IsEven B place w len }
{
    let rest = len % B;
    if place < rest {
        rest - place
    } else {
        B - place
    }
}

/// The number of `len` bytes that come to a place.
pub(crate) fn count_at<const B: usize>(len: usize, place: usize) -> usize
    requires some { 0 < B }
    requires room { len < ROWS * B }
    ensures is { result ≡ count_at B len place }
    ensures few { result ≤ ROWS }
{
    len / B + if place < len % B { 1 } else { 0 }
}

/// Puts columns behind the items of their rings, and takes as many bytes from the items' front into `gone`.
///
/// No other function lends rings, so the compiler builds the lending into this one.
#[inline(never)]
pub(crate) fn exchange_columns(
    rings: &mut [HeapCircularBuffer<u8>],
    places: Places,
    rows: Rows,
    come: &[u8],
    gone: &mut [u8],
)
    requires few { length rings.old ≤ 64 }
    requires places { (places.next < length rings.old) × (places.first + places.width ≤ length rings.old) }
    requires rows { (16 ≤ rows.stride) × (rows.whole < rows.stride) }
    requires come { places.width * rows.stride ≤ length come.now }
    requires gone { places.width * rows.stride ≤ length gone.old }
    ensures { AreExchanged (length rings.old) places.next places.first (places.first + places.width) rows.stride
        rows.whole rows.rest (lists_of rings.old) (lists_of rings.new) come.now gone.new }
{
    let branches = rings.len();
    for c in 0..places.width {
        let place = places.first + c;
        let branch = branch_at(branches, places.next, place);
        let at = c * rows.stride;
        exchange_at(
            &mut rings[branch],
            count_of(rows, place),
            &come[at..at + rows.stride],
            &mut gone[at..at + rows.stride],
        );
    }
}

/// How many bytes come to a place.
#[inline(always)]
fn count_of(rows: Rows, place: usize) -> usize
    requires { rows.whole < rows.stride }
    ensures is { result ≡ count_of rows.whole rows.rest place }
    ensures few { result ≤ rows.stride }
{
    rows.whole + if place < rows.rest { 1 } else { 0 }
}

/// The ring, one of `branches`, to which the byte at a place comes.
fn branch_at(branches: usize, next: usize, place: usize) -> usize
    requires few { branches ≤ 64 }
    requires below { (next < branches) × (place < branches) }
    ensures is { result ≡ branch_at branches next place }
    ensures below { result < branches }
{
    if next + place < branches {
        next + place
    } else {
        next + place - branches
    }
}

/// Puts `count` bytes of a column behind the items of a ring, and takes as many from the items' front into `gone`.
#[inline(always)]
fn exchange_at(ring: &mut HeapCircularBuffer<u8>, count: usize, column: &[u8], gone: &mut [u8])
    requires columns { (16 ≤ length column.now) × (length gone.old ≡ length column.now) }
    requires rows { count ≤ length column.now }
    ensures gone { (k : ℕ) → k < count
        → slice_index gone.new k ≡ slice_index (ring.old.items ++ take count column.now) k }
    ensures items { ring.new.items ≡ drop count (ring.old.items ++ take count column.now) }
{
    lent(ring.make_contiguous(), count, column, gone);
}

/// Does the same with the items of a ring.
#[inline(always)]
fn lent(items: &mut [u8], count: usize, column: &[u8], gone: &mut [u8])
    requires columns { (16 ≤ length column.now) × (length gone.old ≡ length column.now) }
    requires rows { count ≤ length column.now }
    ensures gone { (k : ℕ) → k < count
        → slice_index gone.new k ≡ slice_index (items.old ++ take count column.now) k }
    ensures items { items.new ≡ drop count (items.old ++ take count column.now) }
{
    if count <= 16 {
        exchange_few(items, count, u8x16::from_slice(column)).copy_to_slice(gone);
    } else {
        exchange_many(items, &column[..count], &mut gone[..count]);
    }
}

/// Puts a column behind the items, and takes as many bytes from their front into `gone`.
#[inline(never)]
fn exchange_many(items: &mut [u8], column: &[u8], gone: &mut [u8])
    requires { length gone.old ≡ length column.now }
    ensures gone { gone.new ≡ take (length column.now) (items.old ++ column.now) }
    ensures items { items.new ≡ drop (length column.now) (items.old ++ column.now) }
{
    let (len, count) = (items.len(), column.len());
    if count <= len {
        gone.copy_from_slice(&items[..count]);
        items.copy_within(count.., 0);
        items[len - count..].copy_from_slice(column);
    } else {
        gone[..len].copy_from_slice(items);
        gone[len..].copy_from_slice(&column[..count - len]);
        items.copy_from_slice(&column[count - len..]);
    }
}

/// Puts `count` bytes of a column behind the items, and returns as many from their front. Only the case of most rings
/// is built into the loop over them.
#[inline(always)]
fn exchange_few(items: &mut [u8], count: usize, column: u8x16) -> u8x16
    requires rows { count ≤ 16 }
    requires column { length column ≡ 16 }
    ensures long { length result ≡ 16 }
    ensures gone { (k : ℕ) → k < count → slice_index result k ≡ slice_index (items.old ++ take count column) k }
    ensures items { items.new ≡ drop count (items.old ++ take count column) }
{
    if items.len() >= 32 {
        exchange_long(items, count, column)
    } else {
        exchange_short(items, count, column)
    }
}

/// Does the same where there are at least 32 items.
#[inline(always)]
fn exchange_long(items: &mut [u8], count: usize, column: u8x16) -> u8x16
    requires rows { count ≤ 16 }
    requires column { length column ≡ 16 }
    requires long { 32 ≤ length items.old }
    ensures long { length result ≡ 16 }
    ensures gone { (k : ℕ) → k < count → slice_index result k ≡ slice_index items.old k }
    ensures items { items.new ≡ drop count (items.old ++ take count column) }
{
    let len = items.len();
    let first = u8x16::from_slice(items);
    let last = last_of(u8x16::from_slice(&items[len - 16..]), count, column);
    move_up(items, count);
    last.copy_to_slice(&mut items[len - 16..]);
    first
}

/// The last sixteen bytes of two vectors, of the second of which `count` count.
#[inline(always)]
fn last_of(first: u8x16, count: usize, second: u8x16) -> u8x16
    requires rows { count ≤ 16 }
    requires vectors { (length first ≡ 16) × (length second ≡ 16) }
    ensures long { length result ≡ 16 }
    ensures last { (k : ℕ) → k < 16 → slice_index result k ≡ slice_index (first ++ second) (count + k) }
{
    if count == 16 {
        return second;
    }
    let mut both = [0u8; 32];
    first.copy_to_slice(&mut both);
    second.copy_to_slice(&mut both[16..]);
    u8x16::from_slice(&both[count..])
}

/// Does the same where there are fewer than 32 items. Branches of a multiple of four bytes have calls of their own, in
/// which the compiler has their lengths as constants.
#[inline(never)]
fn exchange_short(items: &mut [u8], count: usize, column: u8x16) -> u8x16
    requires rows { count ≤ 16 }
    requires column { length column ≡ 16 }
    requires short { length items.old < 32 }
    ensures long { length result ≡ 16 }
    ensures gone { (k : ℕ) → k < count → slice_index result k ≡ slice_index (items.old ++ take count column) k }
    ensures items { items.new ≡ drop count (items.old ++ take count column) }
{
    if items.len() == 4 {
        return exchange_known::<4>(items, count, column);
    }
    if items.len() == 8 {
        return exchange_known::<8>(items, count, column);
    }
    if items.len() == 12 {
        return exchange_known::<12>(items, count, column);
    }
    exchange_middle(items, count, column)
}

/// Does the same, for most of those that have at least sixteen items.
#[inline(always)]
fn exchange_middle(items: &mut [u8], count: usize, column: u8x16) -> u8x16
    requires rows { count ≤ 16 }
    requires column { length column ≡ 16 }
    requires short { length items.old < 32 }
    ensures long { length result ≡ 16 }
    ensures gone { (k : ℕ) → k < count → slice_index result k ≡ slice_index (items.old ++ take count column) k }
    ensures items { items.new ≡ drop count (items.old ++ take count column) }
{
    if items.len() == 16 {
        return exchange_known::<16>(items, count, column);
    }
    if items.len() == 20 {
        return exchange_known::<20>(items, count, column);
    }
    if items.len() == 24 {
        return exchange_known::<24>(items, count, column);
    }
    if items.len() == 28 {
        return exchange_known::<28>(items, count, column);
    }
    exchange_joined(items, count, column)
}

/// Does the same where there are `L` items.
#[inline(always)]
fn exchange_known<const L: usize>(items: &mut [u8], count: usize, column: u8x16) -> u8x16
    requires rows { count ≤ 16 }
    requires column { length column ≡ 16 }
    requires known { length items.old ≡ L }
    requires short { length items.old < 32 }
    ensures long { length result ≡ 16 }
    ensures gone { (k : ℕ) → k < count → slice_index result k ≡ slice_index (items.old ++ take count column) k }
    ensures items { items.new ≡ drop count (items.old ++ take count column) }
{
    exchange_joined(&mut items[..L], count, column)
}

/// Does the same by a copy of the items with the column behind them.
#[inline(always)]
fn exchange_joined(items: &mut [u8], count: usize, column: u8x16) -> u8x16
    requires rows { count ≤ 16 }
    requires column { length column ≡ 16 }
    requires short { length items.old < 32 }
    ensures long { length result ≡ 16 }
    ensures gone { (k : ℕ) → k < count → slice_index result k ≡ slice_index (items.old ++ take count column) k }
    ensures items { items.new ≡ drop count (items.old ++ take count column) }
{
    let len = items.len();
    let mut joined = [0u8; 48];
    joined[..len].copy_from_slice(items);
    column.copy_to_slice(&mut joined[len..]);
    items.copy_from_slice(&joined[count..count + len]);
    u8x16::from_slice(&joined)
}
