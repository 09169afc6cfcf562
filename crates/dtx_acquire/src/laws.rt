//! Laws of the segments that are acquired.

ghost use Rattle.std.specs.Prelude.{◌≡◌, ◌<◌, ◌≤◌, ◌++◌, ◌∷◌, [], ◌⊎◌, ◌↔◌, false, ℕ, ℤ, pos, List, length, replicate};
ghost use Rattle.std.specs.List.{flat_map};
ghost use Rattle.dtx_acquire.specs.Acquired.{Field, acquired, acquired_rest, acquired_runs, acquired_so_far};
ghost use Rattle.dtx_acquire.specs.Acquired.{all_fields, IsSame};
ghost use Rattle.dtx_acquire.specs.Agreement.{agrees};
ghost use Rattle.dtx_acquire.specs.Sent.{AreNear, AreInFields, AreSent};

/// If no place of the first symbols agrees, what is acquired is the same without them.
pub fn a_capture_begins_anywhere()
    ensures { (scale : ℕ) (front symbols : List ℤ)
        → ((p : ℕ) → p < length front → agrees (front ++ symbols) p ≡ false)
        → IsSame scale (front ++ symbols) symbols }
{}

/// All that is acquired of symbols is in two parts: what is acquired of them whatever follows, and what their end adds.
pub fn all_is_acquired()
    ensures { (scale : ℕ) (symbols : List ℤ)
        → acquired_so_far scale symbols ++ acquired_rest scale symbols ≡ acquired scale symbols }
{}

/// What is acquired of first symbols, whatever follows, is a prefix of what is acquired of more symbols.
pub fn more_is_acquired_of_more()
    ensures { (scale : ℕ) (symbols more : List ℤ) → (others : List (List ℤ))
        × (acquired_so_far scale (symbols ++ more) ≡ acquired_so_far scale symbols ++ others) }
{}

/// Errors below half the distance of two levels change nothing, at every scale. Take segments as they are sent, from
/// the first of a field on. Let each symbol be received as any that differs by less than the scale from the scale times
/// the symbol sent. Then what is acquired is what was sent.
pub fn a_small_error_moves_nothing()
    ensures { (scale : ℕ) (sent : List (List ℤ)) (symbols : List ℤ) → 0 < scale → AreSent sent
        → AreNear scale (flat_map (λ segment. segment) sent) symbols → acquired scale symbols ≡ sent }
{}

/// Zeros in front of such symbols change nothing either, however many there are. No place of the zeros agrees with a
/// sync. The 515 symbols from there on are zeros and then the first ones of a sync, and more than 128 of them have
/// another sign than a sync's.
pub fn silence_moves_nothing()
    ensures agreement { (scale zeros : ℕ) (sent : List (List ℤ)) (symbols : List ℤ) → AreInFields sent
        → AreNear scale (flat_map (λ segment. segment) sent) symbols
        → (p : ℕ) → p < zeros → agrees (replicate zeros (pos 0) ++ symbols) p ≡ false }
    ensures segments { (scale zeros : ℕ) (sent : List (List ℤ)) (symbols : List ℤ) → 0 < scale → AreSent sent
        → AreNear scale (flat_map (λ segment. segment) sent) symbols
        → acquired scale (replicate zeros (pos 0) ++ symbols) ≡ sent }
{
    a_capture_begins_anywhere();
    a_small_error_moves_nothing();
}

/// What is acquired is whole segments. Those whose number is a multiple of 313 are field syncs, so that they look like
/// one. The others are data segments. No field gives more than 313 segments. Each but the last gives 313 or none, so
/// each run but the last gives a multiple of 313. There is no segment exactly if there is no run.
pub fn whole_fields_are_acquired()
    ensures segments { (scale : ℕ) (symbols : List ℤ) → 0 < scale → AreInFields (acquired scale symbols) }
    ensures most { (symbols : List ℤ) (front : List Field) (field : Field) (back : List Field)
        → all_fields symbols ≡ front ++ field ∷ back → length field.segments ≤ 313 }
    ensures fields { (symbols : List ℤ) (front : List Field) (field next : Field) (back : List Field)
        → all_fields symbols ≡ front ++ field ∷ next ∷ back
        → (length field.segments ≡ 313) ⊎ (length field.segments ≡ 0) }
    ensures none { (scale : ℕ) (symbols : List ℤ) → (acquired_runs symbols ≡ 0) ↔ (acquired scale symbols ≡ []) }
{}
