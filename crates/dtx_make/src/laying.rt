// Damage laid over the bytes of a file (the profile's own).
ghost use Rattle.std.specs.Prelude.{◌≡◌, ◌+◌, ◌<◌, ◌≤◌, ◌^◌, ◌↔◌, IsTrue, [], ◌∷◌, length};
ghost use Rattle.dtx_make.specs.Hurt.{AreInOrder, IsCovered, IsFirstBehind, damaged_bytes, damaged_from, damage_end};

use dtx_plan::{Damage, Damages};

/// Lays damage over bytes that stand at `place` of a file (the profile's own). Each byte that an entry covers becomes
/// that entry's `put`, in two's complement. The others stay.
pub fn lay(damage: &Damages, place: u64, bytes: &mut [u8])
    requires room { place + length bytes.old < 2 ^ 64 }
    requires in_order { AreInOrder damage.now }
    ensures { bytes.new ≡ damaged_bytes damage.now place bytes.old }
{
    let end = place + bytes.len() as u64;
    for i in first_behind(damage, place)..damage.len() {
        let entry = damage.get(i);
        if entry.at >= end {
            break;
        }
        lay_entry(&entry, place, bytes);
    }
}

/// How many of the `count` places from `place` of a file on are covered by an entry.
pub fn damaged_in(damage: &Damages, place: u64, count: u64) -> u64
    requires room { place + count < 2 ^ 64 }
    requires in_order { AreInOrder damage.now }
    ensures { result ≡ damaged_from damage.now place count }
{
    let end = place + count;
    let mut damaged = 0;
    for i in first_behind(damage, place)..damage.len() {
        let entry = damage.get(i);
        if entry.at >= end {
            break;
        }
        let (from, to) = covered(&entry, place, end);
        damaged += to - from;
    }
    damaged
}

/// The index of the first entry that ends behind a place, or the number of entries if none does. The entries before it
/// cover no place from that place on.
fn first_behind(damage: &Damages, place: u64) -> usize
    requires in_order { AreInOrder damage.now }
    ensures { IsFirstBehind damage.now place result }
{
    let mut low = 0;
    let mut high = damage.len();
    while low < high {
        let middle = low + (high - low) / 2;
        if ends_by(&damage.get(middle), place) {
            low = middle + 1;
        } else {
            high = middle;
        }
    }
    low
}

/// Whether the entry covers only places before `place`.
fn ends_by(entry: &Damage, place: u64) -> bool
    ensures { IsTrue result ↔ (damage_end entry.now ≤ place) }
{
    entry.at <= place && entry.count <= place - entry.at
}

/// Lays one entry over bytes that stand at `place` of a file.
fn lay_entry(entry: &Damage, place: u64, bytes: &mut [u8])
    requires room { place + length bytes.old < 2 ^ 64 }
    ensures { bytes.new ≡ damaged_bytes (entry.now ∷ []) place bytes.old }
{
    let (from, to) = covered(entry, place, place + bytes.len() as u64);
    bytes[(from - place) as usize..(to - place) as usize].fill(entry.put.cast_unsigned());
}

/// The places from `place` on and before `end` that the entry covers: the first of them, and the first one behind them.
/// The two are equal if it covers none.
fn covered(entry: &Damage, place: u64, end: u64) -> (u64, u64)
    requires { place ≤ end }
    ensures { IsCovered entry.now place end result.0 result.1 }
{
    let behind = entry.at.saturating_add(entry.count);
    (entry.at.clamp(place, end), behind.clamp(place, end))
}
