//! Laws of de-interleaving, for every number of branches. They are laws of the definitions, so they hold of every
//! implementation of `Gather`, behind any implementation of `Spread`. By `interleaving::any_cut` each holds for any cut
//! into calls.

ghost use Rattle.std.specs.Prelude.{◌≡◌, ℕ, ◌-◌, ◌*◌, ◌<◌, ◌≤◌, ◌++◌, List, length, take, slice_index};
ghost use Rattle.std.specs.List.{concat};
ghost use Rattle.dtx_laws.specs.Branches.{Branching, HasWidths, spreading, gathering, zeroed, aligned, leaving_all};
ghost use Rattle.dtx_laws.specs.Branches.{leaving_calls};
ghost use Rattle.dtx_laws.specs.Interleaving.{gathered_at, gathered, IsGatheredBehind};

/// After an align of both, spreading and gathering give back the input, late by `b * m * (b - 1)` bytes, whatever the
/// branches held. From branches full of zeros all bytes before it are zeros.
pub fn back()
    ensures late { (b m : ℕ) (s g : Branching) (x : List ℕ) (n : ℕ) → HasWidths b (spreading m) s
        → HasWidths b (gathering b m) g → n < length x → b * m * (b - 1) ≤ n
        → slice_index (leaving_all b (aligned g) (leaving_all b (aligned s) x)) n
        ≡ slice_index x (n - b * m * (b - 1)) }
    ensures zeros { (b m : ℕ) (x : List ℕ) (n : ℕ) → 0 < b → n < length x → n < b * m * (b - 1)
        → slice_index (leaving_all b (zeroed b (gathering b m)) (leaving_all b (zeroed b (spreading m)) x)) n ≡ 0 }
{}

/// From aligned branches full of zeros, any calls give the map of places.
pub fn from_zeros()
    ensures { (b m : ℕ) (calls : List (List ℕ)) → 0 < b
        → leaving_calls b (zeroed b (gathering b m)) calls ≡ gathered b m (concat calls) }
{}

/// After an align any calls give the map of places where the source has come, whatever the branches held. Any other
/// byte is one that the branches held.
pub fn behind_align()
    ensures { (b m : ℕ) (v : Branching) (calls : List (List ℕ)) → HasWidths b (gathering b m) v
        → IsGatheredBehind b m v.lists (concat calls) (leaving_calls b (aligned v) calls) }
{}

/// The bytes of the map of places, one by one.
pub fn the_map()
    ensures long { (b m : ℕ) (y : List ℕ) → length (gathered b m y) ≡ length y }
    ensures at { (b m : ℕ) (y : List ℕ) (n : ℕ) → n < length y → slice_index (gathered b m y) n ≡ gathered_at b m y n }
    ensures longer { (b m : ℕ) (y z : List ℕ) → take (length y) (gathered b m (y ++ z)) ≡ gathered b m y }
{}
