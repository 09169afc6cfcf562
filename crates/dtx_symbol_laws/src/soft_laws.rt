//! Laws of what `soft` answers and writes.

ghost use Rattle.std.specs.Prelude.{◌≡◌, ◌+◌, ◌%◌, ◌<◌, ◌≤◌, ◌⊎◌, ◌++◌, ℕ, ℤ, All, None, List, [], length, map};
ghost use Rattle.std.specs.Prelude.{◌-◌, IfSome, slice_index_or, take};
ghost use Rattle.std.specs.List.{sum_by};
ghost use Rattle.dtx_packets.specs.Packets.{packets_of, whole_packets};
ghost use Rattle.dtx_coder.specs.Stream.{a53};
ghost use Rattle.dtx_receiver.specs.Intervals.{AreRuns, NoneLooks};
ghost use Rattle.dtx_receiver.specs.Runs.{runs, tracking};
ghost use Rattle.dtx_soft.specs.Coders.{segments_distance};
ghost use Rattle.dtx_soft.specs.Softened.{softened, softened_cost};
ghost use Rattle.dtx_engine.specs.Recipe.{meaning_of_file};
ghost use Rattle.dtx_files.specs.Symbols.{segment_bytes};
ghost use Rattle.dtx_forms.specs.Shapes as shapes;
ghost use Rattle.dtx_recipes.specs.Soft.{field_sum, in_groups, place_at, soft_rest, soft_so_far, soft_symbols};
ghost use Rattle.dtx_recipes.specs.Soft.{softening};
ghost use Rattle.dtx_recipes.specs.SymbolFile.{file_segments, whole_segments, symbol_bytes};
ghost use Rattle.dtx_symbol_laws.specs.SoftFields.{copied_of, fields_of, kept_of, place_behind};
ghost use Rattle.dtx_symbol_laws.specs.SoftFields.{softened_of, softened_until};

use dtx_sizes::{MOST_PACKETS, MOST_SEGMENTS};
use dtx_soft::laws::{coder_takes_a_path, keeps_own_field};

/// Where a file has at most MOST_SEGMENTS whole segments, all are softened. Where it has more, the answer is `TooLong`.
/// OUT is then what the first MOST_SEGMENTS segments give, but for their last field where it waits for its end. It is a
/// prefix of what all give.
pub fn all_is_softened()
    ensures whole { (names : List (List ℕ)) (file : List ℕ) → whole_segments file ≤ MOST_SEGMENTS
        → meaning_of_file shapes.segments softening names file ≡ softened_of names file }
    ensures too_long { (names : List (List ℕ)) (file : List ℕ) → MOST_SEGMENTS < whole_segments file
        → meaning_of_file shapes.segments softening names file ≡ softened_until names file }
    ensures front { (segments : List (List ℤ)) (n : ℕ)
        → (rest : List (List ℤ)) × (soft_symbols segments ≡ soft_so_far (take n segments) ++ rest) }
{}

/// The segments of the written file are the softened segments. So a law about the softened segments, for example about
/// their runs, is a law about the written file.
pub fn written_segments()
    ensures { (file : List ℕ) → All (λ b. b < 256) file
        → file_segments (segment_bytes (soft_symbols (file_segments file))) ≡ soft_symbols (file_segments file) }
{}

/// Where no segment looks like a field sync, the whole segments of the file are copied, and the number of fields is 0.
pub fn copied_without_a_sync()
    ensures { (names : List (List ℕ)) (file : List ℕ) → All (λ b. b < 256) file
        → whole_segments file ≤ MOST_SEGMENTS → NoneLooks (file_segments file) 0 (whole_segments file)
        → meaning_of_file shapes.segments softening names file ≡ copied_of names file }
{}

/// What is made while segments come, with what their end adds behind it, is all that is made.
pub fn all_is_made()
    ensures { (segments : List (List ℤ)) → soft_so_far segments ++ soft_rest segments ≡ soft_symbols segments }
{}

/// Softening keeps the runs. There are as many as before, each as long and at the same place. Each segment of the
/// output has the role that it has in the input: runs begin, go on and end at the same segments.
pub fn runs_stay()
    ensures intervals { (segments : List (List ℤ)) (places : List (ℕ × ℕ)) → AreRuns segments 0 places
        → AreRuns (soft_symbols segments) 0 places }
    ensures lengths { (segments : List (List ℤ)) → map length (runs (soft_symbols segments))
        ≡ map length (runs segments) }
    ensures tracking { (segments : List (List ℤ)) (i : ℕ) → i < length segments
        → tracking (take i (soft_symbols segments)) (slice_index_or (soft_symbols segments) i [])
        ≡ tracking (take i segments) (slice_index_or segments i []) }
{}

/// A segment of a run is data where it stands 1 to 312 segments behind the run's last field sync. The first of them has
/// place 0 of its field. Outside runs no segment is data.
pub fn places_of_data()
    ensures runs { (segments : List (List ℤ)) (places : List (ℕ × ℕ)) → AreRuns segments 0 places
        → All (λ p. (j : ℕ) → j < p.1 → place_at segments (p.0 + j) ≡ place_behind (j % 313)) places }
    ensures elsewhere { (segments : List (List ℤ)) (places : List (ℕ × ℕ)) (i : ℕ) → AreRuns segments 0 places
        → i < length segments → All (λ p. (i < p.0) ⊎ (p.0 + p.1 ≤ i)) places → place_at segments i ≡ None }
{}

/// A count over fields is a sum over the fields of the runs. It counts the data segments in whole groups of each field
/// that has a data segment. These segments are softened. All other segments stay as they are: those that aren't data,
/// and data behind the whole groups of their field.
pub fn fields_are_softened()
    ensures count { (count : List (List ℤ) → ℕ) (segments : List (List ℤ))
        → field_sum count segments (length segments) ≡ sum_by count (fields_of segments) }
    ensures fields { (segments : List (List ℤ))
        → fields_of (soft_symbols segments) ≡ map (softened 1) (fields_of segments) }
    ensures others { (segments : List (List ℤ)) (i : ℕ) → i < length segments
        → IfSome (place_at segments i) (λ place. length (in_groups segments (i - place)) ≤ place)
        → slice_index_or (soft_symbols segments) i [] ≡ slice_index_or segments i [] }
{}

/// The cost of all least paths of a file is how far softening moves its symbols: the sum of the squares of the
/// differences, over all symbols of its whole segments.
pub fn cost_of_all()
    ensures { (file : List ℕ) → field_sum (softened_cost 1) (file_segments file) (whole_segments file)
        ≡ segments_distance (file_segments file) (soft_symbols (file_segments file)) }
{}

/// The segments of a stream stay as they are, and all their least paths cost nothing. So `soft` leaves the file that
/// `code` writes for a stream as it is, at cost 0, and counts as many segments as `code` does. It counts a field for
/// each 78 groups of four packets that are begun, and no loose bytes.
pub fn a_stream_stays()
    ensures symbols { (packets : List (List ℕ)) → soft_symbols (a53 packets) ≡ a53 packets }
    ensures cost { (packets : List (List ℕ))
        → field_sum (softened_cost 1) (a53 packets) (length (a53 packets)) ≡ 0 }
    ensures file { (names : List (List ℕ)) (stream : List ℕ) → whole_packets stream ≤ MOST_PACKETS
        → meaning_of_file shapes.segments softening names (symbol_bytes (packets_of stream)) ≡ kept_of names stream }
{
    coder_takes_a_path();
    keeps_own_field();
}
