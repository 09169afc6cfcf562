//! Laws of captures that are levelled (the profile's own).

ghost use Rattle.std.specs.Prelude.{◌≡◌, ◌<◌, ◌≤◌, ℕ, ℤ, List, [], length};
ghost use Rattle.dtx_engine.specs.Recipe.{meaning_of_file};
ghost use Rattle.dtx_forms.specs.Shapes as shapes;
ghost use Rattle.dtx_level.specs.Levelled.{levelled};
ghost use Rattle.dtx_level.specs.Measures.{measures};
ghost use Rattle.dtx_level.specs.Syncs.{all_syncs};
ghost use Rattle.dtx_recipes.specs.Level.{levelling, levelled_of, levelled_until};

use dtx_sizes::MOST_SYMBOLS;

/// What `level` answers and writes for any file. Each byte is a symbol. Where the file has at most MOST_SYMBOLS bytes,
/// OUT is all that is levelled of them, and LOG has a line for each sync. Where it has more, the answer is `TooLong`.
/// OUT and LOG are then what is known after the first MOST_SYMBOLS bytes, whatever follows them. Where there is no
/// sync, OUT and LOG are empty.
pub fn all_is_levelled_of_a_file()
    ensures whole { (names : List (List ℕ)) (file : List ℕ) → length file ≤ MOST_SYMBOLS
        → meaning_of_file shapes.single_bytes levelling names file ≡ levelled_of names file }
    ensures too_long { (names : List (List ℕ)) (file : List ℕ) → MOST_SYMBOLS < length file
        → meaning_of_file shapes.single_bytes levelling names file ≡ levelled_until names file }
    ensures no_sync { (symbols : List ℤ) → all_syncs symbols ≡ []
        → (levelled symbols ≡ []) × (measures symbols ≡ []) }
{}
