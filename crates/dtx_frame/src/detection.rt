//! Detects a field sync, and the field that it belongs to.

ghost use Rattle.std.specs.Prelude.{◌≡◌, ◌<◌, ◌≤◌};
ghost use Rattle.dtx_frame.specs.Detection.{differs, differing, looks_like, opposite, opposites, looks_second};

use crate::tables::FIRST;
use dtx_sizes::SEGMENT;
use dtx_slice::level;

/// The number of symbols that a segment sync and the long sequence have together.
const KNOWN: usize = 515;

/// The number of these symbols that may differ.
const MAY_DIFFER: u16 = 32;

/// The place at which the middle one of the three short sequences begins, and its length.
const MIDDLE: usize = 578;

const SHORT: usize = 63;

/// The least number of its symbols that have the other sign in a second field.
const INVERTED: u16 = 32;

/// Whether a segment looks like a field sync: at most 32 of its first 515 symbols, sliced, differ from those of one.
/// The four of the segment sync are among them (the profile's own).
pub fn looks(segment: &[i8; SEGMENT]) -> bool
    ensures { result ≡ looks_like segment.now }
{
    differing(segment) <= MAY_DIFFER
}

/// The number of the first 515 symbols that differ.
fn differing(segment: &[i8; SEGMENT]) -> u16
    ensures { result ≡ differing segment.now }
{
    let mut count = 0;
    for i in 0..KNOWN {
        count += differs(segment, i);
    }
    count
}

/// 1 where symbol `i` differs from that of a field sync, else 0.
#[inline(always)]
fn differs(segment: &[i8; SEGMENT], i: usize) -> u16
    requires { i < KNOWN }
    ensures differs { result ≡ differs segment.now i }
    ensures small { result ≤ 1 }
{
    if level(segment[i]) == level(FIRST[i]) {
        0
    } else {
        1
    }
}

/// Whether a field sync is that of a second field. It is where at least 32 of the 63 symbols of the middle short
/// sequence, sliced, have the other sign than this sequence. Levels 0 to 3 are the negative sign (the profile's own).
pub fn is_second(segment: &[i8; SEGMENT]) -> bool
    ensures { result ≡ looks_second segment.now }
{
    opposites(segment) >= INVERTED
}

/// The number of the 63 symbols that have the other sign.
fn opposites(segment: &[i8; SEGMENT]) -> u16
    ensures { result ≡ opposites segment.now }
{
    let mut count = 0;
    for i in 0..SHORT {
        count += opposite(segment, i);
    }
    count
}

/// 1 where symbol `i` of the 63 has the other sign, else 0.
#[inline(always)]
fn opposite(segment: &[i8; SEGMENT], i: usize) -> u16
    requires { i < SHORT }
    ensures opposite { result ≡ opposite segment.now i }
    ensures small { result ≤ 1 }
{
    if level(segment[MIDDLE + i]) / 4 == level(FIRST[MIDDLE + i]) / 4 {
        0
    } else {
        1
    }
}
