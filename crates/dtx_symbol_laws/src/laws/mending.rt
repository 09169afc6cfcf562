//! Laws of `mend`, which reads symbol files with missing symbols. A symbol of value -128, whose byte is 0x80, means
//! that nothing was received there (the profile's own; ATSC A/53 Part 2 for what is sent).

ghost use Rattle.std.specs.Prelude.{◌≡◌, ◌+◌, ◌%◌, ◌<◌, ◌≤◌, ◌++◌, ◌∷◌, ℕ, ℤ, List, Some, [], length, take};
ghost use Rattle.std.specs.FinMap as files;
ghost use Rattle.dtx_erase.specs.Mended.{all_mended, mended, mended_so_far};
ghost use Rattle.dtx_outside.specs.Shelf.{Files};
ghost use Rattle.dtx_packets.specs.Packets.{packets_of};
ghost use Rattle.dtx_receiver.specs.Intervals.{AreRuns, NoneLooks, segments_in};
ghost use Rattle.dtx_receiver.specs.Packets.{packets_so_far};
ghost use Rattle.dtx_receiver.specs.declared.batch.Received.{Received};
ghost use Rattle.dtx_chain.specs.Damage.{AreReceived, to_sync, ArePackets};
ghost use Rattle.dtx_engine.specs.Recipe.{meaning_of_file};
ghost use Rattle.dtx_forms.specs.Shapes as shapes;
ghost use Rattle.dtx_recipes.specs.Giving.{bytes_of, no_sync_in};
ghost use Rattle.dtx_recipes.specs.Mend.{mend_job, mending_symbols};
ghost use Rattle.dtx_recipes.specs.MendedBack.{CanAllBeMended, CanBeMended, IsMendedBack, NoneMissing, all_back_of};
ghost use Rattle.dtx_recipes.specs.MendedBack.{mended_bytes, mended_of, mended_until, packets_before, word_of};
ghost use Rattle.dtx_recipes.specs.Receive.{receive_job, received_bytes, receiving};
ghost use Rattle.dtx_recipes.specs.SymbolFile.{file_segments, whole_segments};

use dtx_meaning::Status;
use dtx_sizes::{FIELD_PACKETS, MOST_SEGMENTS};

/// For a file of at most MOST_SEGMENTS segments, `mend` writes all packets, one behind another. They are as many as
/// `receive` writes for the file, whatever is missing.
pub fn all_is_mended()
    ensures written { (names : List (List ℕ)) (file : List ℕ) → whole_segments file ≤ MOST_SEGMENTS
        → meaning_of_file shapes.segments mending_symbols names file ≡ mended_of names file }
    ensures packets { (file : List ℕ) → packets_of (mended_bytes file) ≡ mended (file_segments file) }
    ensures long { (file : List ℕ) → length (mended_bytes file) ≡ length (received_bytes file) }
{}

/// The three answers of `mend` that a file's content decides, each with its cause. Where the file has more than
/// MOST_SEGMENTS segments, the answer is `TooLong`. OUT is then what the first MOST_SEGMENTS segments give while they
/// come. It is a prefix of what all give, and as many packets as `receive` writes then. Else, where no segment looks
/// like a field sync, the answer is `NoSync`, and OUT is empty. Where one does, the answer is `Done`.
pub fn mending_answers()
    ensures too_long { (names : List (List ℕ)) (file : List ℕ) → MOST_SEGMENTS < whole_segments file
        → meaning_of_file shapes.segments mending_symbols names file ≡ mended_until names file }
    ensures front { (segments : List (List ℤ)) (n : ℕ)
        → (rest : List Received) × (all_mended segments ≡ mended_so_far (take n segments) ++ rest) }
    ensures long { (segments : List (List ℤ))
        → length (bytes_of (mended_so_far segments)) ≡ length (bytes_of (packets_so_far segments)) }
    ensures no_sync { (names : List (List ℕ)) (file : List ℕ) → whole_segments file ≤ MOST_SEGMENTS
        → NoneLooks (file_segments file) 0 (whole_segments file)
        → meaning_of_file shapes.segments mending_symbols names file ≡ no_sync_in names }
    ensures done { (names : List (List ℕ)) (file : List ℕ) → whole_segments file ≤ MOST_SEGMENTS
        → (NoneLooks (file_segments file) 0 (whole_segments file) → ⊥)
        → (meaning_of_file shapes.segments mending_symbols names file).outcome.status ≡ Status.Done }
{}

/// A packet comes back, whatever else is received, where its word is near its codeword. Let packet f of a stream begin
/// a field. Let word j of a run be all there. Let it differ from the codeword of packet f + j in e unmarked bytes, with
/// m bytes marked, and let `2 * e + m` be at most 20. Then the run gives packet f + j as its packet j, behind the
/// packets of the runs before. It has 0x47 as its sync byte and isn't flagged.
pub fn a_near_packet_is_mended()
    ensures { (stream : List (List ℕ)) (file : List ℕ) (earlier later : List (ℕ × ℕ)) (run : ℕ × ℕ) (f j : ℕ)
        → ArePackets stream → f % FIELD_PACKETS ≡ 0 → f + j < length stream
        → AreRuns (file_segments file) 0 (earlier ++ run ∷ later)
        → CanBeMended stream (f + j) (segments_in (file_segments file) run) j
        → IsMendedBack stream file (packets_before (file_segments file) earlier + j) (f + j)
        (word_of (segments_in (file_segments file) run) j) }
{}

/// Let a file be segments in a row of a stream, a field sync among them, received with damage that can be mended. Then
/// `mend` writes the packets from the one behind the first field sync on whose bytes are all there. They are in order,
/// and there is no other. Each has 0x47 as its sync byte. There is one run, and no packet is flagged.
pub fn a_stretch_is_mended()
    ensures { (names stream : List (List ℕ)) (first : ℕ) (sent : List (List ℤ)) (file : List ℕ)
        → whole_segments file ≤ MOST_SEGMENTS → ArePackets stream
        → AreReceived stream first sent (file_segments file) → to_sync first < length sent
        → CanAllBeMended stream first sent (file_segments file)
        → meaning_of_file shapes.segments mending_symbols names file ≡ all_back_of names stream first file }
{}

/// Where no symbol is missing, `mend` answers and writes as `receive` does, whatever the file holds.
pub fn nothing_to_mend()
    ensures file { (names : List (List ℕ)) (file : List ℕ) → NoneMissing file
        → meaning_of_file shapes.segments mending_symbols names file
        ≡ meaning_of_file shapes.segments receiving names file }
    ensures words { (verb input output : List ℕ) (held : Files)
        → ((file : List ℕ) → files.get held input ≡ Some file → NoneMissing file)
        → mend_job.means (verb ∷ input ∷ output ∷ []) held ≡ receive_job.means (verb ∷ input ∷ output ∷ []) held }
{}
