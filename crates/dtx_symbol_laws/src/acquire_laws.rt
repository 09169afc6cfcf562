//! Laws of what `acquire` answers and writes.

ghost use Rattle.std.specs.Prelude.{◌≡◌, ◌≢◌, ◌↔◌, ◌%◌, ◌<◌, ◌≤◌, ◌++◌, ℕ, ℤ, pos, true, List, [], ◌∷◌, length, take};
ghost use Rattle.std.specs.Prelude.{replicate};
ghost use Rattle.dtx_coder.specs.Stream.{a53, a53_symbols};
ghost use Rattle.dtx_receiver.specs.Intervals.{looks_at};
ghost use Rattle.dtx_receiver.specs.Runs.{runs};
ghost use Rattle.dtx_acquire.specs.Acquired.{acquired, acquired_so_far};
ghost use Rattle.dtx_acquire.specs.Sent.{AreNear};
ghost use Rattle.dtx_meaning.specs.declared.status.Status.TheVariants.{NoSync};
ghost use Rattle.dtx_engine.specs.Recipe.{meaning_of_file};
ghost use Rattle.dtx_files.specs.Symbols.{segment_bytes};
ghost use Rattle.dtx_forms.specs.Shapes as shapes;
ghost use Rattle.dtx_recipes.specs.Acquire.{acquire_answer, acquiring, with_acquirer};
ghost use Rattle.dtx_recipes.specs.Giving.{no_sync_in};
ghost use Rattle.dtx_recipes.specs.SymbolFile.{file_segments};
ghost use Rattle.dtx_symbol_laws.specs.RestoredFile.{acquired_of, file_acquired, restored_until};

use dtx_acquire::laws::{
    a_small_error_moves_nothing, silence_moves_nothing, whole_fields_are_acquired,
};
use dtx_sizes::{FIELD_SEGMENTS, MOST_SYMBOLS};
use dtx_soft::laws::coder_takes_a_path;

/// What `acquire` answers and writes for any file, at any scale. Each byte is a symbol. Let the file have at most
/// MOST_SYMBOLS bytes. Where something is acquired of them, the answer is `Done`, and OUT is all that is acquired. The
/// numbers are the bytes, the runs, the segments, what all least paths cost and the bytes in no segment. Where nothing
/// is acquired, the answer is `NoSync`, and OUT is there and empty. Where the file has more bytes, the answer is
/// `TooLong`. OUT is then what the first MOST_SYMBOLS bytes give while they come, a prefix of what all give.
pub fn all_is_acquired_of_a_file()
    ensures done { (names : List (List ℕ)) (scale : ℕ) (file : List ℕ) → length file ≤ MOST_SYMBOLS
        → file_acquired scale file ≢ []
        → meaning_of_file shapes.single_bytes (acquiring scale) names file ≡ acquired_of scale names file }
    ensures no_sync { (names : List (List ℕ)) (scale : ℕ) (file : List ℕ) → length file ≤ MOST_SYMBOLS
        → file_acquired scale file ≡ []
        → meaning_of_file shapes.single_bytes (acquiring scale) names file ≡ no_sync_in names }
    ensures too_long { (names : List (List ℕ)) (scale : ℕ) (file : List ℕ) → MOST_SYMBOLS < length file
        → meaning_of_file shapes.single_bytes (acquiring scale) names file
        ≡ restored_until (with_acquirer scale) names file }
    ensures front { (scale : ℕ) (symbols : List ℤ) (n : ℕ)
        → (rest : List (List ℤ)) × (acquired scale symbols ≡ acquired_so_far scale (take n symbols) ++ rest) }
{
    whole_fields_are_acquired();
}

/// An error below half the distance of two levels changes nothing, at any scale. Take as many symbols as a stream has.
/// Let each differ from the scale times the stream's symbol by less than the scale. Then what is acquired of them are
/// the stream's segments.
pub fn a_stream_is_acquired()
    ensures { (scale : ℕ) (packets : List (List ℕ)) (symbols : List ℤ) → 0 < scale
        → AreNear scale (a53_symbols packets) symbols → acquired scale symbols ≡ a53 packets }
{
    coder_takes_a_path();
    a_small_error_moves_nothing();
}

/// The same holds for these symbols behind any number of zeros.
pub fn a_stream_is_acquired_behind_zeros()
    ensures { (scale zeros : ℕ) (packets : List (List ℕ)) (symbols : List ℤ) → 0 < scale
        → AreNear scale (a53_symbols packets) symbols
        → acquired scale (replicate zeros (pos 0) ++ symbols) ≡ a53 packets }
{
    coder_takes_a_path();
    silence_moves_nothing();
}

/// What is acquired is one run for `receive`, where it isn't empty. Each segment whose number 313 divides looks like a
/// field sync. The segments of the file that is written are those that are acquired.
pub fn one_run_is_acquired()
    ensures syncs { (scale : ℕ) (symbols : List ℤ) (i : ℕ) → 0 < scale → i < length (acquired scale symbols)
        → i % FIELD_SEGMENTS ≡ 0 → looks_at (acquired scale symbols) i ≡ true }
    ensures run { (scale : ℕ) (symbols : List ℤ) → 0 < scale → acquired scale symbols ≢ []
        → runs (acquired scale symbols) ≡ acquired scale symbols ∷ [] }
    ensures file { (scale : ℕ) (symbols : List ℤ) → 0 < scale
        → file_segments (segment_bytes (acquired scale symbols)) ≡ acquired scale symbols }
{
    whole_fields_are_acquired();
}

/// At the end of a file that isn't too long, the answer is `NoSync` exactly where nothing is acquired.
pub fn no_sync_where_nothing_is_acquired()
    ensures { (scale : ℕ) (symbols : List ℤ)
        → ((acquire_answer scale symbols).status ≡ NoSync) ↔ (acquired scale symbols ≡ []) }
{
    whole_fields_are_acquired();
}
