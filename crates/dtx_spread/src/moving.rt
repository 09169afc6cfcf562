//! Items moved towards the front of their slice, by vectors.

ghost use Rattle.std.specs.Prelude.{◌≡◌, ℕ, ◌+◌, ◌-◌, ◌*◌, ◌/◌, ◌<◌, ◌≤◌, length, slice_index};

use std::simd::prelude::*;

/// Moves the items behind the first `count` to the front. What stands behind them then isn't said.
#[inline(always)]
pub(crate) fn move_up(items: &mut [u8], count: usize)
    requires rows { count ≤ 16 }
    requires long { 32 ≤ length items.old }
    ensures { (k : ℕ) → k + count < length items.old → slice_index items.new k ≡ slice_index items.old (count + k) }
{
    let left = items.len() - count;
    let whole = left / 16 * 16 - 16;
    let one = u8x16::from_slice(&items[whole + count..]);
    let last = u8x16::from_slice(&items[left - 16 + count..]);
    move_pairs(items, count);
    one.copy_to_slice(&mut items[whole..]);
    last.copy_to_slice(&mut items[left - 16..]);
}

/// Moves the items behind the first `count`, 32 at a time, so far as whole 32 go.
#[inline(always)]
fn move_pairs(items: &mut [u8], count: usize)
    requires rows { count ≤ length items.old }
    ensures { (k : ℕ) → k < 32 * ((length items.old - count) / 32)
        → slice_index items.new k ≡ slice_index items.old (count + k) }
{
    for i in 0..(items.len() - count) / 32 {
        let first = u8x16::from_slice(&items[32 * i + count..]);
        let second = u8x16::from_slice(&items[32 * i + 16 + count..]);
        first.copy_to_slice(&mut items[32 * i..]);
        second.copy_to_slice(&mut items[32 * i + 16..]);
    }
}
