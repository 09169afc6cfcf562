//! Laws of what `refine` answers and writes, and of rounds over a capture: a stream without damage comes back, and a
//! packet that is known stays.

ghost use Rattle.std.specs.Prelude.{◌≡◌, ◌≢◌, ◌↔◌, ◌+◌, ◌%◌, ◌<◌, ◌≤◌, ◌++◌, ℕ, ℤ, pos, true, Some, List, [], ◌∷◌};
ghost use Rattle.std.specs.Prelude.{length, replicate, slice_get, take};
ghost use Rattle.dtx_coder.specs.Stream.{a53, a53_symbols};
ghost use Rattle.dtx_receiver.specs.Bytes.{bytes_in};
ghost use Rattle.dtx_receiver.specs.Intervals.{looks_at};
ghost use Rattle.dtx_receiver.specs.Packets.{all_packets};
ghost use Rattle.dtx_receiver.specs.Runs.{runs};
ghost use Rattle.dtx_chain.specs.Damage.{ArePackets};
ghost use Rattle.dtx_acquire.specs.Acquired.{acquired};
ghost use Rattle.dtx_acquire.specs.Sent.{AreNear};
ghost use Rattle.dtx_rounds.specs.Known.{known_word};
ghost use Rattle.dtx_rounds.specs.Rounds.{refined, refined_so_far};
ghost use Rattle.dtx_meaning.specs.declared.status.Status.TheVariants.{NoSync};
ghost use Rattle.dtx_engine.specs.Recipe.{meaning_of_file};
ghost use Rattle.dtx_files.specs.Symbols.{segment_bytes};
ghost use Rattle.dtx_forms.specs.Shapes as shapes;
ghost use Rattle.dtx_recipes.specs.Giving.{no_sync_in};
ghost use Rattle.dtx_recipes.specs.Refine.{refine_answer, refining, with_refiner};
ghost use Rattle.dtx_recipes.specs.SymbolFile.{file_segments};
ghost use Rattle.dtx_symbol_laws.specs.RestoredFile.{StayGood, received_as, file_refined, refined_of, restored_until};

use crate::acquire_laws::{a_stream_is_acquired, a_stream_is_acquired_behind_zeros};
use dtx_acquire::laws::whole_fields_are_acquired;
use dtx_rounds::laws::{nothing_moves_where_no_byte_is_put_right, what_is_known_stays};
use dtx_sizes::{FIELD_SEGMENTS, MOST_SYMBOLS};
use dtx_soft::MAX_SCALE;

/// What `refine` answers and writes for any file, at any scale and after any number of rounds but 0. Each byte is a
/// symbol.
/// Let the file have at most MOST_SYMBOLS bytes. Where something is refined of them, the answer is `Done`, and OUT is
/// all that is refined. The numbers are the bytes, the runs and the segments, what all least paths of the last round
/// cost, the words that it knew, the symbols that it moved, and the bytes in no segment. Where nothing is refined, the
/// answer is `NoSync`, and OUT is there and empty. Where the file has more bytes, the answer is `TooLong`. OUT is then
/// what the first MOST_SYMBOLS bytes give while they come, a prefix of what all give.
pub fn all_is_refined_of_a_file()
    ensures done { (names : List (List ℕ)) (scale rounds : ℕ) (file : List ℕ) → length file ≤ MOST_SYMBOLS
        → file_refined scale rounds file ≢ []
        → meaning_of_file shapes.single_bytes (refining scale rounds) names file
        ≡ refined_of scale rounds names file }
    ensures no_sync { (names : List (List ℕ)) (scale rounds : ℕ) (file : List ℕ) → length file ≤ MOST_SYMBOLS
        → file_refined scale rounds file ≡ []
        → meaning_of_file shapes.single_bytes (refining scale rounds) names file ≡ no_sync_in names }
    ensures too_long { (names : List (List ℕ)) (scale rounds : ℕ) (file : List ℕ) → MOST_SYMBOLS < length file
        → meaning_of_file shapes.single_bytes (refining scale rounds) names file
        ≡ restored_until (with_refiner scale rounds) names file }
    ensures front { (scale rounds : ℕ) (symbols : List ℤ) (n : ℕ) → (rest : List (List ℤ))
        × (refined scale symbols rounds ≡ refined_so_far scale (take n symbols) rounds ++ rest) }
{
    whole_fields_are_acquired();
}

/// Noise below half the distance of two levels changes nothing, whatever the rounds. Take as many symbols as a stream
/// of packets has. Let each differ from the scale times the stream's symbol by less than the scale. Then the segments
/// after any number of rounds are the stream's segments.
pub fn a_stream_is_refined()
    ensures { (scale r : ℕ) (packets : List (List ℕ)) (symbols : List ℤ) → 0 < scale → scale ≤ MAX_SCALE
        → ArePackets packets → AreNear scale (a53_symbols packets) symbols
        → refined scale symbols r ≡ a53 packets }
{
    a_stream_is_acquired();
    nothing_moves_where_no_byte_is_put_right();
}

/// The same holds for these symbols behind any number of zeros.
pub fn a_stream_is_refined_behind_zeros()
    ensures { (scale r zeros : ℕ) (packets : List (List ℕ)) (symbols : List ℤ) → 0 < scale → scale ≤ MAX_SCALE
        → ArePackets packets → AreNear scale (a53_symbols packets) symbols
        → refined scale (replicate zeros (pos 0) ++ symbols) r ≡ a53 packets }
{
    a_stream_is_acquired_behind_zeros();
    nothing_moves_where_no_byte_is_put_right();
}

/// After rounds there are as many segments as are acquired. They are one run for `receive`, where there are any. Each
/// segment whose number 313 divides looks like a field sync. The segments of the file that is written are those after
/// the rounds.
pub fn one_run_is_refined()
    ensures count { (scale r : ℕ) (symbols : List ℤ) → 0 < scale
        → length (refined scale symbols r) ≡ length (acquired scale symbols) }
    ensures syncs { (scale r : ℕ) (symbols : List ℤ) (i : ℕ) → 0 < scale → i < length (refined scale symbols r)
        → i % FIELD_SEGMENTS ≡ 0 → looks_at (refined scale symbols r) i ≡ true }
    ensures run { (scale r : ℕ) (symbols : List ℤ) → 0 < scale → refined scale symbols r ≢ []
        → runs (refined scale symbols r) ≡ refined scale symbols r ∷ [] }
    ensures file { (scale r : ℕ) (symbols : List ℤ) → 0 < scale
        → file_segments (segment_bytes (refined scale symbols r)) ≡ refined scale symbols r }
{
    whole_fields_are_acquired();
}

/// A packet that is known stays. Let word k of the bytes after r rounds have this correction. Then `receive` gives the
/// correction's data as packet k, not flagged, after these rounds and after all further ones. So each packet that it
/// gives without a flag after r rounds it gives after all further ones too, at the same place and without a flag. The
/// same holds of the packets of the acquired segments, which are those before the first round. There are always as many
/// packets as of the acquired segments.
pub fn a_packet_that_is_known_stays()
    ensures known { (scale r n k : ℕ) (symbols : List ℤ) (code : List ℕ) → 0 < scale → scale ≤ MAX_SCALE
        → known_word (bytes_in (refined scale symbols r)) k ≡ Some code
        → slice_get (all_packets (refined scale symbols (r + n))) k
        ≡ Some (received_as (bytes_in (refined scale symbols (r + n))) k code) }
    ensures good { (scale r n : ℕ) (symbols : List ℤ) → 0 < scale → scale ≤ MAX_SCALE
        → StayGood (all_packets (refined scale symbols r)) (all_packets (refined scale symbols (r + n))) }
    ensures acquired { (scale r : ℕ) (symbols : List ℤ) → 0 < scale → scale ≤ MAX_SCALE
        → StayGood (all_packets (acquired scale symbols)) (all_packets (refined scale symbols r)) }
    ensures count { (scale r : ℕ) (symbols : List ℤ) → 0 < scale
        → length (all_packets (refined scale symbols r)) ≡ length (all_packets (acquired scale symbols)) }
{
    what_is_known_stays();
    whole_fields_are_acquired();
}

/// At the end of a file that isn't too long, the answer is `NoSync` exactly where nothing is refined.
pub fn no_sync_where_nothing_is_refined()
    ensures { (scale rounds : ℕ) (symbols : List ℤ)
        → ((refine_answer scale rounds symbols).status ≡ NoSync) ↔ (refined scale symbols rounds ≡ []) }
{
    whole_fields_are_acquired();
}
