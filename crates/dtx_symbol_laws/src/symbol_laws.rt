//! Laws of what `receive` writes for a symbol file. It writes the packets of all whole segments, or nothing where no
//! segment looks like a field sync. A file with damage laid over its bytes is received as its damaged bytes. Further
//! laws are about a file that is cut, and about two files one behind the other.

ghost use Rattle.std.specs.Prelude.{◌≡◌, ◌+◌, ◌*◌, ◌<◌, ◌≤◌, ◌%◌, ◌++◌, ℕ, All, List, [], length, take};
ghost use Rattle.dtx_plan.specs.declared.damage.Damage.{Damage};
ghost use Rattle.dtx_make.specs.Hurt.{hurt};
ghost use Rattle.dtx_receiver.specs.Intervals.{AreRuns, NoneLooks};
ghost use Rattle.dtx_meaning.specs.Status.{ended};
ghost use Rattle.dtx_engine.specs.Recipe.{meaning_of_file};
ghost use Rattle.dtx_forms.specs.Shapes as shapes;
ghost use Rattle.dtx_forms.specs.Damaged.{damaged_making};
ghost use Rattle.dtx_recipes.specs.Giving.{given_until};
ghost use Rattle.dtx_recipes.specs.Receive.{IsWritten, receive_answer, received_bytes, receiving, with_corrections};
ghost use Rattle.dtx_recipes.specs.Receive.{received_of};
ghost use Rattle.dtx_recipes.specs.SymbolFile.{file_segments, whole_segments};

use dtx_meaning::Status;
use dtx_sizes::MOST_SEGMENTS;

/// The segments of a file are those of its two parts, where the first part has whole segments alone. Loose bytes stand
/// in no segment.
pub fn segments_in_pieces()
    ensures pieces { (first rest : List ℕ) → length first % 832 ≡ 0
        → file_segments (first ++ rest) ≡ file_segments first ++ file_segments rest }
    ensures whole { (file : List ℕ) → file_segments (take (832 * whole_segments file) file) ≡ file_segments file }
    ensures count { (file : List ℕ) → length (file_segments file) ≡ whole_segments file }
{}

/// For a file of at most MOST_SEGMENTS segments, all packets are written. Where damage is laid over the file, they are
/// the packets of the damaged bytes. Where a file has more segments, the answer is `TooLong`, and OUT is what the first
/// MOST_SEGMENTS segments give while they come.
pub fn all_is_received()
    ensures plain { (names : List (List ℕ)) (file : List ℕ) → whole_segments file ≤ MOST_SEGMENTS
        → meaning_of_file shapes.segments receiving names file ≡ received_of names file (length file % 832) }
    ensures damaged { (names : List (List ℕ)) (damage : List Damage) (file : List ℕ)
        → whole_segments file ≤ MOST_SEGMENTS
        → meaning_of_file shapes.segments (damaged_making damage receiving) names file
        ≡ received_of names (hurt damage file) (length file % 832) }
    ensures too_long { (names : List (List ℕ)) (file : List ℕ) → MOST_SEGMENTS < whole_segments file
        → meaning_of_file shapes.segments receiving names file ≡ given_until with_corrections names file }
{}

/// Where no segment looks like a field sync, the answer is `NoSync`, and no packet is written.
pub fn nothing_without_a_sync()
    ensures answer { (file : List ℕ) (loose : ℕ) → NoneLooks (file_segments file) 0 (whole_segments file)
        → receive_answer (file_segments file) loose ≡ ended Status.NoSync }
    ensures packets { (file : List ℕ) → NoneLooks (file_segments file) 0 (whole_segments file)
        → received_bytes file ≡ [] }
{}

/// Wherever a symbol file is cut, what is written for its first bytes is a prefix of what is written for the file.
pub fn cut_symbols()
    ensures { (file : List ℕ) (n : ℕ) → whole_segments file ≤ MOST_SEGMENTS
        → (first rest : List ℕ) × IsWritten file (first ++ rest) × IsWritten (take n file) first }
{}

/// Let a file have whole segments alone, and let each of its runs end before one of its segments, so that no run is on
/// at its end. Let a second file stand behind it. What is written for both together is what is written for each, one
/// behind the other.
pub fn spliced_symbols()
    ensures { (a b : List ℕ) (places : List (ℕ × ℕ)) → whole_segments (a ++ b) ≤ MOST_SEGMENTS
        → length a % 832 ≡ 0 → AreRuns (file_segments a) 0 places → All (λ p. p.0 + p.1 < whole_segments a) places
        → (x y : List ℕ) × IsWritten a x × IsWritten b y × IsWritten (a ++ b) (x ++ y) }
{}
