//! Laws of `repeat`, which sends symbol files again (the profile's own, over ATSC A/53 Part 2 and in the manner of ATSC
//! A/110).

ghost use Rattle.std.specs.Prelude.{◌≡◌, ◌<◌, ◌≤◌, ℕ, ℤ, List, take};
ghost use Rattle.dtx_receiver.specs.Intervals.{NoneLooks};
ghost use Rattle.dtx_engine.specs.Made.{AreFrontsOf};
ghost use Rattle.dtx_engine.specs.Recipe.{meaning_of_file};
ghost use Rattle.dtx_forms.specs.Shapes as shapes;
ghost use Rattle.dtx_recipes.specs.Giving.{no_sync_in};
ghost use Rattle.dtx_recipes.specs.Repeat.{repeating};
ghost use Rattle.dtx_recipes.specs.SymbolFile.{file_segments, whole_segments};
ghost use Rattle.dtx_symbol_laws.specs.RepeatedFiles.{outputs_so_far, repeated_of, repeated_outputs, repeated_until};

use dtx_sizes::MOST_SEGMENTS;

/// What `repeat` answers and writes for any file, at any address and delay. Let the file have at most MOST_SEGMENTS
/// segments. Where one of them looks like a field sync, the answer is `Done`. OUT then has the symbols of the segments
/// that are repeated, and LOG the lines of their log, all and no other. The numbers are those of the segments, of their
/// runs and of the exciter's lives. Where no segment looks like a field sync, the answer is `NoSync`, and both outputs
/// are empty. Where the file has more segments, the answer is `TooLong`. The outputs are then what the first
/// MOST_SEGMENTS segments give while they come. Each is a prefix of what all give.
pub fn all_is_repeated()
    ensures done { (address delay : ℕ) (names : List (List ℕ)) (file : List ℕ) → whole_segments file ≤ MOST_SEGMENTS
        → (NoneLooks (file_segments file) 0 (whole_segments file) → ⊥)
        → meaning_of_file shapes.segments (repeating address delay) names file
        ≡ repeated_of address delay names file }
    ensures no_sync { (address delay : ℕ) (names : List (List ℕ)) (file : List ℕ)
        → whole_segments file ≤ MOST_SEGMENTS → NoneLooks (file_segments file) 0 (whole_segments file)
        → meaning_of_file shapes.segments (repeating address delay) names file ≡ no_sync_in names }
    ensures too_long { (address delay : ℕ) (names : List (List ℕ)) (file : List ℕ)
        → MOST_SEGMENTS < whole_segments file
        → meaning_of_file shapes.segments (repeating address delay) names file
        ≡ repeated_until address delay names file }
    ensures front { (address delay : ℕ) (segments : List (List ℤ)) (n : ℕ)
        → AreFrontsOf (outputs_so_far address delay (take n segments)) (repeated_outputs address delay segments) }
{}
