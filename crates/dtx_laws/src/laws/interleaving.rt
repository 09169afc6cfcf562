//! Laws of interleaving, for every number of branches. They are laws of the definitions, so they hold of every
//! implementation of `Spread`.

ghost use Rattle.std.specs.Prelude.{◌≡◌, ℕ, ◌<◌, ◌++◌, List, length, take, slice_index};
ghost use Rattle.std.specs.List.{concat};
ghost use Rattle.dtx_laws.specs.Branches.{Branching, HasWidths, spreading, zeroed, aligned, leaving_all, after_all};
ghost use Rattle.dtx_laws.specs.Branches.{leaving_calls, after_calls};
ghost use Rattle.dtx_laws.specs.Interleaving.{interleaved_at, interleaved, IsInterleavedBehind};

/// Any cut of the input into calls gives what one call gives, and leaves the same branches.
pub fn any_cut()
    ensures bytes { (b : ℕ) (v : Branching) (calls : List (List ℕ))
        → leaving_calls b v calls ≡ leaving_all b v (concat calls) }
    ensures branches { (b : ℕ) (v : Branching) (calls : List (List ℕ))
        → after_calls b v calls ≡ after_all b v (concat calls) }
{}

/// From aligned branches full of zeros, any calls give the map of places.
pub fn from_zeros()
    ensures { (b m : ℕ) (calls : List (List ℕ)) → 0 < b
        → leaving_calls b (zeroed b (spreading m)) calls ≡ interleaved b m (concat calls) }
{}

/// After an align any calls give the map of places where the source has come, whatever the branches held. Any other
/// byte is one that the branches held.
pub fn behind_align()
    ensures { (b m : ℕ) (v : Branching) (calls : List (List ℕ)) → HasWidths b (spreading m) v
        → IsInterleavedBehind b m v.lists (concat calls) (leaving_calls b (aligned v) calls) }
{}

/// The branches keep their widths.
pub fn widths_stay()
    ensures { (b : ℕ) (w : ℕ → ℕ) (v : Branching) (x : List ℕ) → HasWidths b w v → HasWidths b w (after_all b v x) }
{}

/// The bytes of the map of places, one by one.
pub fn the_map()
    ensures long { (b m : ℕ) (x : List ℕ) → length (interleaved b m x) ≡ length x }
    ensures at { (b m : ℕ) (x : List ℕ) (n : ℕ) → n < length x
        → slice_index (interleaved b m x) n ≡ interleaved_at b m x n }
    ensures longer { (b m : ℕ) (x z : List ℕ) → take (length x) (interleaved b m (x ++ z)) ≡ interleaved b m x }
{}
