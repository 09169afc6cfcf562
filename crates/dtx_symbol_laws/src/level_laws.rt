//! Laws of what `level` makes of a stream's symbols.

ghost use Rattle.std.specs.Prelude.{◌≡◌, ◌↔◌, ◌*◌, ◌+◌, ◌<◌, ◌≤◌, ◌++◌, ℕ, ℤ, pos, nat_abs, false, List, length, map};
ghost use Rattle.std.specs.Prelude.{replicate};
ghost use Rattle.dtx_coder.specs.Stream.{a53, a53_symbols};
ghost use Rattle.dtx_acquire.specs.Acquired.{acquired};
ghost use Rattle.dtx_level.specs.Levelled.{levelled};
ghost use Rattle.dtx_level.specs.Measures.{later_by};
ghost use Rattle.dtx_level.specs.Shown.{shows};
ghost use Rattle.dtx_level.specs.Standing.{AreLevelled, eightfold, standing};
ghost use Rattle.dtx_symbol_laws.specs.LevelledStream.{fields_begun, stream_measures};

use crate::acquire_laws::a_stream_is_acquired_behind_zeros;
use dtx_level::laws::{a_capture_begins_anywhere, whole_fields_are_levelled};

/// A stream is levelled exactly, at any gain. Let `gain` steps make a unit, below 0 in a capture that is turned. Let
/// the constant be less than five units, above or below 0. Let each symbol `s` of the stream stand in the capture as
/// `gain * s + constant`. Then it becomes `8 * s`. One sync is measured for each field that is begun. The first is at
/// place 0, and each other one is 313 segments behind the one before. It is a second field's where the field's number
/// is odd. Its gain and its constant are measured as 100 times theirs, and its noise as 0. There is no slip. The places
/// are all multiples of 260,416 below the number of symbols, and a whole segment begins at each.
pub fn a_stream_is_levelled()
    ensures levelled { (gain constant : ℤ) (packets : List (List ℕ)) → nat_abs constant < 5 * nat_abs gain
        → AreLevelled (standing gain constant (a53_symbols packets)) (eightfold (a53_symbols packets))
        (stream_measures gain constant packets) }
    ensures places { (packets : List (List ℕ)) (f : ℕ)
        → (f < fields_begun packets) ↔ (260416 * f < length (a53_symbols packets)) }
    ensures whole { (packets : List (List ℕ)) (f : ℕ) → f < fields_begun packets
        → 260416 * f + 832 ≤ length (a53_symbols packets) }
{
    whole_fields_are_levelled();
}

/// The same holds behind a front in which no place shows a sync, where the stream has a whole group of four packets.
/// Each symbol of the front becomes 0. Each sync is later by the number of symbols of the front.
pub fn a_stream_behind_a_front_is_levelled()
    ensures { (gain constant : ℤ) (front : List ℤ) (packets : List (List ℕ)) → nat_abs constant < 5 * nat_abs gain
        → 4 ≤ length packets
        → ((p : ℕ) → p < length front → shows (front ++ standing gain constant (a53_symbols packets)) p ≡ false)
        → AreLevelled (front ++ standing gain constant (a53_symbols packets))
        (replicate (length front) (pos 0) ++ eightfold (a53_symbols packets))
        (map (later_by (length front)) (stream_measures gain constant packets)) }
{
    a_stream_is_levelled();
    a_capture_begins_anywhere();
}

/// What is levelled of a stream's capture can be acquired at eight steps a unit, and gives the stream's segments. It
/// does so at any gain, and behind any front that shows no sync.
pub fn a_levelled_stream_is_acquired()
    ensures stream { (gain constant : ℤ) (packets : List (List ℕ)) → nat_abs constant < 5 * nat_abs gain
        → acquired 8 (levelled (standing gain constant (a53_symbols packets))) ≡ a53 packets }
    ensures behind { (gain constant : ℤ) (front : List ℤ) (packets : List (List ℕ))
        → nat_abs constant < 5 * nat_abs gain → 4 ≤ length packets
        → ((p : ℕ) → p < length front → shows (front ++ standing gain constant (a53_symbols packets)) p ≡ false)
        → acquired 8 (levelled (front ++ standing gain constant (a53_symbols packets))) ≡ a53 packets }
{
    a_stream_is_levelled();
    a_stream_behind_a_front_is_levelled();
    a_stream_is_acquired_behind_zeros();
}
