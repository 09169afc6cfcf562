//! Laws of rounds.

ghost use Rattle.std.specs.Prelude.{◌≡◌, ◌+◌, ◌++◌, ◌*◌, ◌<◌, ◌≤◌, ℕ, ℤ, true, Option, Some, None};
ghost use Rattle.std.specs.Prelude.{List, [], length, map, slice_index_or, sum};
ghost use Rattle.std.specs.List.{range_with_len};
ghost use Rattle.dtx_laws.specs.Codeword.{IsCodeword};
ghost use Rattle.dtx_outer.specs.Inner.{word_at};
ghost use Rattle.dtx_receiver.specs.Bytes.{bytes_in};
ghost use Rattle.dtx_receiver.specs.Packets.{is_complete};
ghost use Rattle.dtx_soft.specs.Softened.{least_cost, softened_cost};
ghost use Rattle.dtx_acquire.specs.Acquired.{acquired, acquired_cost};
ghost use Rattle.dtx_rounds.specs.Decided.{decided_rows, heard_rows};
ghost use Rattle.dtx_rounds.specs.FieldRound.{KnowsNothing, field_rounded, words_known};
ghost use Rattle.dtx_rounds.specs.RunField.{AreSegments, rows_of, IsInRun, IsRounded};
ghost use Rattle.dtx_rounds.specs.Known.{known_byte, known_bytes, known_count, known_word, byte_at_step};
ghost use Rattle.dtx_rounds.specs.Rounds.{coder_cost, groups_in, fields_in, heard_of, refined, refined_rest};
ghost use Rattle.dtx_rounds.specs.Rounds.{refined_so_far, rounded, rounds_of};
ghost use Rattle.dtx_rounds.specs.Rounds.{round_cost, round_moved};
ghost use Rattle.dtx_rounds.specs.RunRounds.{IsGiven};
ghost use Rattle.dtx_rounds.specs.declared.field.Field.{Field};

use crate::field::{BYTES, WORDS};
use dtx_acquire::laws::whole_fields_are_acquired;
use dtx_sizes::{CODERS, CODEWORD, PACKET_DATA};
use dtx_soft::MAX_SCALE;

/// At the first step of each of the first five data segments of a field: the place of the byte whose pair a coder
/// takes. The coders are 0, 4, 8, 0 and 4.
pub fn first_bytes()
    ensures segment_0 { byte_at_step 0 0 ≡ 0 }
    ensures segment_1 { byte_at_step 4 69 ≡ 208 }
    ensures segment_2 { byte_at_step 8 138 ≡ 412 }
    ensures segment_3 { byte_at_step 0 207 ≡ 616 }
    ensures segment_4 { byte_at_step 4 276 ≡ 828 }
{}

/// Each word that is known of some segments is known of those after a round, with the same correction. So each word
/// that is known after some rounds over a capture is known after all further ones.
pub fn what_is_known_stays()
    ensures round { (scale k : ℕ) (heard given : List (List ℤ)) (code : List ℕ) → 0 < scale → scale ≤ MAX_SCALE
        → AreSegments given → length heard ≡ length given
        → known_word (bytes_in given) k ≡ Some code → known_word (bytes_in (rounded scale heard given)) k ≡ Some code }
    ensures capture { (scale r n k : ℕ) (symbols : List ℤ) (code : List ℕ) → 0 < scale → scale ≤ MAX_SCALE
        → known_word (bytes_in (refined scale symbols r)) k ≡ Some code
        → known_word (bytes_in (refined scale symbols (r + n))) k ≡ Some code }
{}

/// If no byte of a known word of the acquired segments is put right, rounds leave these segments as they are. They do
/// so if all words whose bytes are there are codewords, as those of a stream are, and if no word is known.
pub fn nothing_moves_where_no_byte_is_put_right()
    ensures own { (scale r : ℕ) (symbols : List ℤ) → 0 < scale → scale ≤ MAX_SCALE
        → ((k : ℕ) (code : List ℕ) → known_word (bytes_in (acquired scale symbols)) k ≡ Some code
        → code ≡ word_at 207 52 4 (bytes_in (acquired scale symbols)) k)
        → refined scale symbols r ≡ acquired scale symbols }
    ensures codewords { (scale r : ℕ) (symbols : List ℤ) → 0 < scale → scale ≤ MAX_SCALE
        → ((k : ℕ) → is_complete (length (bytes_in (acquired scale symbols))) k ≡ true
        → IsCodeword CODEWORD PACKET_DATA (word_at 207 52 4 (bytes_in (acquired scale symbols)) k))
        → refined scale symbols r ≡ acquired scale symbols }
    ensures none { (scale r : ℕ) (symbols : List ℤ) → 0 < scale → scale ≤ MAX_SCALE
        → ((k : ℕ) → known_word (bytes_in (acquired scale symbols)) k ≡ None)
        → refined scale symbols r ≡ acquired scale symbols }
{
    whole_fields_are_acquired();
}

/// A round goes field by field: the segments of a field after it are those of a round over the field alone, under what
/// is known there.
pub fn a_round_goes_field_by_field()
    ensures segments { (scale f : ℕ) (heard given : List (List ℤ)) (known : List (Option ℕ))
        → ((n : ℕ) → n < BYTES → slice_index_or known n None ≡ known_byte (bytes_in given) (BYTES * f + n))
        → rows_of (rounded scale heard given) f
        ≡ field_rounded scale (rows_of heard f) known (rows_of given f) }
{}

/// A capture before its first round: its segments are a run for rounds. A field of it that was just set, at the cost of
/// the paths by which it was acquired, is in this run.
pub fn a_capture_begins_as_it_was_acquired()
    ensures long { (scale : ℕ) (symbols : List ℤ) → 0 < scale → scale ≤ MAX_SCALE
        → AreSegments (acquired scale symbols) }
    ensures same { (scale : ℕ) (symbols : List ℤ) → length (heard_of symbols) ≡ length (acquired scale symbols) }
    ensures field { (scale f : ℕ) (symbols : List ℤ) (field : Field) → 0 < scale → scale ≤ MAX_SCALE
        → length field.words ≡ WORDS → field.count ≡ length (rows_of (acquired scale symbols) f)
        → heard_rows field ≡ rows_of (heard_of symbols) f → decided_rows field ≡ rows_of (acquired scale symbols) f
        → field.cost ≡ softened_cost scale (groups_in (heard_of symbols) f)
        → KnowsNothing field.known.items field.words field.knows_more field.moved
        → IsInRun scale (heard_of symbols) (acquired scale symbols) (known_word []) f field }
{
    whole_fields_are_acquired();
}

/// What rounds give of a capture is the refined one: field f has the segments after so many rounds over it, and what
/// the last of these rounds cost, knew and moved.
pub fn what_rounds_give_is_refined()
    ensures segments { (scale count f : ℕ) (symbols : List ℤ) (field : Field)
        → IsGiven scale (heard_of symbols) (acquired scale symbols) [] count f field
        → decided_rows field ≡ rows_of (refined scale symbols count) f }
    ensures last { (scale r f : ℕ) (symbols : List ℤ) (field : Field)
        → IsGiven scale (heard_of symbols) (acquired scale symbols) [] (r + 1) f field
        → IsRounded scale (heard_of symbols) (refined scale symbols r) f field }
{}

/// The numbers of a round are the sums of those of its fields: what their paths cost, in how many symbols they moved,
/// and how many of their words are known.
pub fn the_numbers_of_a_round_are_those_of_its_fields()
    ensures cost { (scale : ℕ) (heard given : List (List ℤ)) (field : ℕ → Field)
        → ((f : ℕ) → f < fields_in given → IsRounded scale heard given f (field f))
        → sum (map (λ f. (field f).cost) (range_with_len 0 (fields_in given))) ≡ round_cost scale heard given }
    ensures moved { (scale : ℕ) (heard given : List (List ℤ)) (field : ℕ → Field)
        → ((f : ℕ) → f < fields_in given → IsRounded scale heard given f (field f))
        → sum (map (λ f. (field f).moved) (range_with_len 0 (fields_in given))) ≡ round_moved scale heard given }
    ensures known { (scale : ℕ) (heard given : List (List ℤ)) (field : ℕ → Field) → AreSegments given
        → ((f : ℕ) → f < fields_in given → IsRounded scale heard given f (field f))
        → sum (map (λ f. words_known (field f).words) (range_with_len 0 (fields_in given)))
        ≡ known_count (bytes_in given) }
{}

/// All refined segments of a capture are in two parts: those that are refined whatever follows, and those that the end
/// adds. What is refined of first symbols, whatever follows, is a prefix of what is refined of more symbols, and of all
/// refined segments of these.
pub fn more_is_refined_of_more()
    ensures all { (scale r : ℕ) (symbols : List ℤ)
        → refined_so_far scale symbols r ++ refined_rest scale symbols r ≡ refined scale symbols r }
    ensures more { (scale r : ℕ) (symbols more : List ℤ) → (others : List (List ℤ))
        × (refined_so_far scale (symbols ++ more) r ≡ refined_so_far scale symbols r ++ others) }
{}

/// Where a round gives what it was given, all further ones do. Over segments of 832 symbols, as many as were received,
/// it gives that exactly if it moves no symbol.
pub fn a_round_that_moves_nothing_is_the_last()
    ensures rounds { (scale n : ℕ) (heard given : List (List ℤ)) → rounded scale heard given ≡ given
        → rounds_of scale heard given n ≡ given }
    ensures capture { (scale r n : ℕ) (symbols : List ℤ) → refined scale symbols (r + 1) ≡ refined scale symbols r
        → refined scale symbols (r + n) ≡ refined scale symbols r }
    ensures still { (scale : ℕ) (heard given : List (List ℤ)) → AreSegments given → length heard ≡ length given
        → round_moved scale heard given ≡ 0 → rounded scale heard given ≡ given }
    ensures none { (scale : ℕ) (heard given : List (List ℤ)) → rounded scale heard given ≡ given
        → round_moved scale heard given ≡ 0 }
    ensures still_capture { (scale r n : ℕ) (symbols : List ℤ)
        → round_moved scale (heard_of symbols) (refined scale symbols r) ≡ 0
        → refined scale symbols (r + n) ≡ refined scale symbols r }
{}

/// The least path of a coder in a field costs no less in a round than in the one before, and in the first round no less
/// than without pins. So all least paths of a round together cost no less than those of the round before, and in the
/// first round no less than those by which the capture was acquired.
pub fn costs_rise()
    ensures first { (scale f e : ℕ) (symbols : List ℤ) → least_cost scale (groups_in (heard_of symbols) f) e
        ≤ coder_cost scale (heard_of symbols) (known_bytes (bytes_in (refined scale symbols 0))) f e }
    ensures next { (scale r f e : ℕ) (symbols : List ℤ) → 0 < scale → scale ≤ MAX_SCALE → e < CODERS
        → coder_cost scale (heard_of symbols) (known_bytes (bytes_in (refined scale symbols r))) f e
        ≤ coder_cost scale (heard_of symbols) (known_bytes (bytes_in (refined scale symbols (r + 1)))) f e }
    ensures begin { (scale : ℕ) (symbols : List ℤ)
        → acquired_cost scale symbols ≤ round_cost scale (heard_of symbols) (refined scale symbols 0) }
    ensures whole { (scale r : ℕ) (symbols : List ℤ) → 0 < scale → scale ≤ MAX_SCALE
        → round_cost scale (heard_of symbols) (refined scale symbols r)
        ≤ round_cost scale (heard_of symbols) (refined scale symbols (r + 1)) }
{
    whole_fields_are_acquired();
}
