//! Laws of the definitions: the one least path under pins, and what pins change.

ghost use Rattle.std.specs.Prelude.{◌≡◌, ◌↔◌, ℕ, ℤ, pos, ◌<◌, ◌≤◌, IsTrue, List, [], ◌∷◌, length};
ghost use Rattle.std.specs.Prelude.{slice_index_or};
ghost use Rattle.dtx_soft.specs.Coders.{coders_distance};
ghost use Rattle.dtx_soft.specs.Least.{least_path};
ghost use Rattle.dtx_soft.specs.Paths.{cost, symbol_at};
ghost use Rattle.dtx_pins.specs.Pins.{Agrees, agrees, pin_at};
ghost use Rattle.dtx_pins.specs.LeastPinned.{IsLeastPinned, least_pinned_levels, least_pinned_path};
ghost use Rattle.dtx_pins.specs.LeastPinned.{least_pinned_start};
ghost use Rattle.dtx_pins.specs.PinnedField.{IsPinned, pinned, pinned_cost};

use dtx_sizes::{CODERS, SEGMENT};

/// There is exactly one least path under pins, and `least_pinned_path` gives it. It agrees with the pins, and no path
/// that agrees with them costs less.
pub fn one_least_pinned_path()
    ensures found { (scale : ℕ) (pins : List ℕ) (symbols : List ℤ) → IsLeastPinned scale pins symbols
        (least_pinned_start scale pins symbols) (least_pinned_levels scale pins symbols) }
    ensures one { (scale : ℕ) (pins : List ℕ) (symbols : List ℤ) (start : ℕ) (levels : List ℕ)
        → IsLeastPinned scale pins symbols start levels → least_pinned_path scale pins symbols ≡ start ∷ levels }
{}

/// Without pins it is the least path.
pub fn without_pins()
    ensures { (scale : ℕ) (pins : List ℕ) (symbols : List ℤ) → ((t : ℕ) → t < length symbols → 4 ≤ pin_at pins t)
        → least_pinned_path scale pins symbols ≡ least_path scale symbols }
{}

/// Let each path that agrees with some pins agree with others too. The least path under the first costs no less.
pub fn more_pins_cost_more()
    ensures { (scale : ℕ) (more pins : List ℕ) (symbols : List ℤ)
        → ((levels : List ℕ) → length levels ≡ length symbols → Agrees more levels → Agrees pins levels)
        → cost scale symbols (least_pinned_levels scale pins symbols)
        ≤ cost scale symbols (least_pinned_levels scale more symbols) }
{}

/// The test of agreement says whether levels tell the pair of each pin.
pub fn agreement()
    ensures { (pins levels : List ℕ) → IsTrue (agrees pins levels) ↔ Agrees pins levels }
{}

/// What `pinned` gives are segments decided under pins, at the scale of what was heard. No other list of segments with
/// 832 symbols each is so decided. At each other scale too no more than one list is.
pub fn one_pinning()
    ensures found { (scale : ℕ) (pins : List (List ℕ)) (segments : List (List ℤ))
        → IsPinned scale scale pins segments segments (pinned scale pins segments) }
    ensures one { (scale : ℕ) (pins : List (List ℕ)) (old new : List (List ℤ))
        → IsPinned scale scale pins old old new
        → ((i : ℕ) → i < length new → length (slice_index_or new i []) ≡ SEGMENT) → new ≡ pinned scale pins old }
    ensures alone { (scale at : ℕ) (pins : List (List ℕ)) (heard old new other : List (List ℤ))
        → IsPinned scale at pins heard old new → IsPinned scale at pins heard old other
        → ((i : ℕ) → i < length new → length (slice_index_or new i []) ≡ SEGMENT)
        → ((i : ℕ) → i < length other → length (slice_index_or other i []) ≡ SEGMENT) → new ≡ other }
{}

/// Let a field be decided at scale 1. Each data symbol is then that of the level whose symbol `pinned` has there.
pub fn decided_levels()
    ensures { (scale i k : ℕ) (pins : List (List ℕ)) (heard old new : List (List ℤ))
        → IsPinned scale 1 pins heard old new → i < length new → 4 ≤ k → k < SEGMENT
        → (z : ℕ) × (z < 8)
        × (slice_index_or (slice_index_or (pinned scale pins heard) i []) k (pos 0) ≡ symbol_at scale z)
        × (slice_index_or (slice_index_or new i []) k (pos 0) ≡ symbol_at 1 z) }
{}

/// Let segments be decided at the scale of what was heard. The symbols of each coder are then off those that were
/// heard by what its least path under pins costs, in the sum of the squares.
pub fn cost_of_pinning()
    ensures { (scale : ℕ) (pins : List (List ℕ)) (heard old new : List (List ℤ))
        → IsPinned scale scale pins heard old new
        → coders_distance heard new CODERS ≡ pinned_cost scale pins heard }
{}
