//! The measure of a field sync in a capture.

ghost use Rattle.std.specs.Prelude.{◌≡◌, ◌≤◌, ◌+ℤ◌, pos, nat_abs};
ghost use Rattle.dtx_level.specs.Measures.{constant_in_hundredths, gain_in_hundredths};
ghost use Rattle.dtx_level.specs.Measures.{noise};
ghost use Rattle.dtx_acquire.specs.Agreement.{is_second};
ghost use Rattle.std.specs.Int.{int_div_euclid};
ghost use Rattle.dtx_level.specs.Shown.{IsBounded};

use crate::pattern::{Pattern, Standing};
use dtx_acquire::is_second;
use dtx_sizes::SEGMENT;

/// What is measured of a field sync (the profile's own; ATSC A/53 Part 2, data field sync).
#[derive(Clone, Copy, Drop)]
pub struct Measure {
    /// Its place, counted in symbols from the capture's first.
    pub place: u64,
    /// Whether it is the sync of a second field.
    pub second: bool,
    /// The gain in hundredths of a step a unit, below 0 where the capture is turned.
    pub gain: i64,
    /// The constant in hundredths of a step.
    pub constant: i64,
    /// The noise: each of its first 515 symbols, levelled, differs from 40 or -40, and this is the sum of the squares
    /// of the differences.
    pub noise: u64,
}

/// The measure of the sync at `place`, which shows `standing`. Its segment is `levelled` by it.
pub(crate) fn measure_of(
    pattern: &Pattern,
    place: u64,
    standing: Standing,
    levelled: &[i8; SEGMENT],
) -> Measure
    requires small_gain { IsBounded standing.gain }
    requires small_constant { IsBounded standing.constant }
    ensures place { result.place ≡ place }
    ensures second { result.second ≡ is_second levelled.now }
    ensures gain { result.gain ≡ gain_in_hundredths standing.gain }
    ensures constant { result.constant ≡ constant_in_hundredths standing.constant }
    ensures noise { result.noise ≡ noise levelled.now 515 }
{
    Measure {
        place,
        second: is_second(levelled),
        gain: hundredths(20 * standing.gain),
        constant: hundredths(100 * standing.constant),
        noise: pattern.noise(levelled),
    }
}

/// A number divided by 2 * 258 * 257, rounded to the next whole number. Ties go up.
fn hundredths(number: i64) -> i64
    requires { nat_abs number ≤ 3394880000 }
    ensures { result ≡ int_div_euclid (number +ℤ pos 66306) (pos 132612) }
{
    (number + 66_306).div_euclid(132_612)
}
