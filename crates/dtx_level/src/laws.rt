//! Laws of levelled captures.

ghost use Rattle.std.specs.Prelude.{◌≡◌, ◌≢◌, ◌<◌, ◌≤◌, ◌++◌, ◌*◌, ◌+ℤ◌, ◌*ℤ◌, false, ℕ, ℤ, pos, List};
ghost use Rattle.std.specs.Prelude.{if◌then◌else◌, length, map, nat_abs, sum};
ghost use Rattle.std.specs.List.{flat_map, range_with_len};
ghost use Rattle.dtx_acquire.specs.Agreement.{sync_sign};
ghost use Rattle.dtx_acquire.specs.Sent.{AreInFields};
ghost use Rattle.dtx_level.specs.Shown.{shows};
ghost use Rattle.dtx_level.specs.Measures.{IsGrown, IsLater, constant_in_hundredths, gain_in_hundredths};
ghost use Rattle.dtx_level.specs.Measures.{measures, measures_rest, measures_so_far};
ghost use Rattle.dtx_level.specs.Levelled.{levelled, levelled_rest, levelled_so_far, levelled_symbol};
ghost use Rattle.dtx_level.specs.Standing.{AreLevelled, eightfold, standing, standing_measures};

/// What is levelled while symbols come, with what their end adds behind it, is all that is levelled of them.
pub fn all_is_levelled()
    ensures { (symbols : List ℤ) → levelled_so_far symbols ++ levelled_rest symbols ≡ levelled symbols }
{}

/// What stands before the first sync changes nothing behind it. Let no place of a front show a sync. Then each symbol
/// of the front becomes 0, and the symbols behind it become what they do without the front. The measures of the syncs
/// differ in their places alone, by the length of the front. (Where there is no sync behind the front, nothing is
/// levelled.)
pub fn a_capture_begins_anywhere()
    ensures { (front symbols : List ℤ) → ((p : ℕ) → p < length front → shows (front ++ symbols) p ≡ false)
        → IsLater front symbols }
{}

/// What is levelled and measured while the first symbols come is a prefix of what is levelled and measured while more
/// come.
pub fn more_is_levelled_of_more()
    ensures { (symbols more : List ℤ) → IsGrown symbols more }
{}

/// The syncs that are measured while symbols come, and those that the end adds, are all syncs.
pub fn all_syncs_are_measured()
    ensures { (symbols : List ℤ) → measures_so_far symbols ++ measures_rest symbols ≡ measures symbols }
{}

/// A gain and a constant are undone exactly. Let `a` steps make a unit, where `a` isn't 0, and is below 0 in a capture
/// that is turned. Let the constant be `b`, so that each symbol `s` stands as `a * s + b`. A sync then shows the gain
/// `663060 * a` and the constant `132612 * b`, since 258 of its 515 signs are plus and 257 are minus. Levelled by that
/// sync, a symbol `s` of -15 to 15 becomes `8 * s`. The sync's gain is measured as `100 * a`, and its constant as `100
/// * b`.
pub fn a_gain_is_undone()
    ensures symbol { (a b s : ℤ) → a ≢ pos 0 → nat_abs s ≤ 15
        → levelled_symbol (pos 663060 *ℤ a) (pos 132612 *ℤ b) (a *ℤ s +ℤ b) ≡ pos 8 *ℤ s }
    ensures gain { (a : ℤ) → gain_in_hundredths (pos 663060 *ℤ a) ≡ pos 100 *ℤ a }
    ensures constant { (b : ℤ) → constant_in_hundredths (pos 132612 *ℤ b) ≡ pos 100 *ℤ b }
{}

/// Of the first 515 symbols of a field sync, 258 are +5. So the other 257 are -5.
pub fn the_signs_are_counted()
    ensures { sum (map (λ i. if sync_sign i then 1 else 0) (range_with_len 0 515)) ≡ 258 }
{}

/// Whole fields are levelled exactly, at any gain. Take segments as they are sent, from a field's first segment on. Let
/// `gain` steps make a unit, below 0 in a capture that is turned. Let the constant be less than five units, above or
/// below 0. So all symbols of a sync keep their signs, or all change them. Each symbol `s` stands as `gain * s +
/// constant`, and becomes `8 * s`. One sync is measured for each field that is begun: its place, which field's it is,
/// 100 times the gain, 100 times the constant, and a noise of 0. None is a slip. The symbols needn't fit a byte.
pub fn whole_fields_are_levelled()
    ensures { (gain constant : ℤ) (sent : List (List ℤ)) → nat_abs constant < 5 * nat_abs gain → AreInFields sent
        → AreLevelled (standing gain constant (flat_map (λ segment. segment) sent))
        (eightfold (flat_map (λ segment. segment) sent)) (standing_measures gain constant sent) }
{}
