//! Laws of mendings, for every `n` and `k`. They are laws of the definitions, so they hold of each mender. The last
//! ones are about the packets of segments with missing symbols.

ghost use Rattle.std.specs.Prelude.{◌≡◌, ℕ, ℤ, Bool, true, List, [], ◌∷◌, ◌++◌, ◌+◌, ◌-◌, ◌*◌, ◌%◌, ◌≤◌, length, map};
ghost use Rattle.dtx_laws.specs.Codeword.{IsCodeword, IsCorrection, distance};
ghost use Rattle.dtx_outer.specs.Inner.{word_at};
ghost use Rattle.dtx_receiver.specs.Bytes.{bytes_in};
ghost use Rattle.dtx_receiver.specs.Packets.{all_packets, packet_bytes, packets_so_far, received};
ghost use Rattle.dtx_receiver.specs.declared.batch.Received.{Received};
ghost use Rattle.dtx_erase.specs.Marks.{AllThere, is_set, marks_in, shown_run};
ghost use Rattle.dtx_erase.specs.Mended.{all_mended, marks_at, mended, mended_at, mended_so_far};
ghost use Rattle.dtx_erase.specs.Mending.{IsMended, IsMending, IsUnmended, lost, unmarked_distance};

use dtx_sizes::{BRANCH_STEP, BRANCHES, CODEWORD, PACKET_DATA};

/// A word has at most one mending.
pub fn one_mending()
    ensures { (n k : ℕ) (marks : List Bool) (word a b : List ℕ) → n ≤ 255 → length word ≡ n → length marks ≡ n
        → IsMending n k marks word a → IsMending n k marks word b → a ≡ b }
{}

/// A word and its marks have at most one answer.
pub fn one_answer()
    ensures same { (n k : ℕ) (marks : List Bool) (word a b : List ℕ) (c d : ℕ) → n ≤ 255 → length word ≡ n
        → length marks ≡ n → IsMended n k marks word a c → IsMended n k marks word b d → (a ≡ b) × (c ≡ d) }
    ensures either { (n k : ℕ) (marks : List Bool) (word a b : List ℕ) (c : ℕ) → IsMended n k marks word a c
        → IsUnmended n k marks word b → ⊥ }
{}

/// Without marks a mending is a correction, and a correction is a mending.
pub fn without_marks()
    ensures correction { (n k : ℕ) (marks : List Bool) (word code : List ℕ) → length word ≡ n → length marks ≡ n
        → lost marks ≡ 0 → IsMending n k marks word code → IsCorrection n k word code }
    ensures mending { (n k : ℕ) (marks : List Bool) (word code : List ℕ) → length word ≡ n → length marks ≡ n
        → lost marks ≡ 0 → IsCorrection n k word code → IsMending n k marks word code }
{}

/// A codeword with at most `n - k` marked places is its own mending, which changes no byte.
pub fn codeword_mended()
    ensures { (n k : ℕ) (marks : List Bool) (word : List ℕ) → IsCodeword n k word → lost marks ≤ n - k
        → IsMended n k marks word word 0 }
{}

/// Let e unmarked bytes of a codeword become wrong, and let f places be marked, where `2 * e + f` is at most `n - k`.
/// The codeword is the only mending of this word, whatever stands at the marked places.
pub fn damage_mended()
    ensures only { (n k : ℕ) (marks : List Bool) (code word : List ℕ) → n ≤ 255 → length word ≡ n → length marks ≡ n
        → IsCodeword n k code → 2 * unmarked_distance marks word code + lost marks ≤ n - k
        → (right : List ℕ) → IsMending n k marks word right → right ≡ code }
    ensures is { (n k : ℕ) (marks : List Bool) (code word : List ℕ) → IsCodeword n k code
        → 2 * unmarked_distance marks word code + lost marks ≤ n - k → IsMending n k marks word code }
{}

/// Where no symbol is missing, the packets are those of `Receiver`, with the same `fixed` and `good`.
pub fn nothing_missing()
    ensures packets { (segments : List (List ℤ)) → AllThere segments → all_mended segments ≡ all_packets segments }
    ensures so_far { (segments : List (List ℤ)) → AllThere segments
        → mended_so_far segments ≡ packets_so_far segments }
    ensures bytes { (segments : List (List ℤ)) → AllThere segments → mended segments ≡ received segments }
{}

/// Let a packet's word differ from a codeword in e unmarked bytes, and let f of its bytes be marked, where `2 * e + f`
/// is at most 20. The word gives the codeword's packet, whatever stands at the marked places.
pub fn near_packet()
    ensures { (bytes : List ℕ) (marks : List Bool) (k : ℕ) (code : List ℕ) → IsCodeword CODEWORD PACKET_DATA code
        → 2 * unmarked_distance (marks_at marks k) (word_at CODEWORD BRANCHES BRANCH_STEP bytes k) code
        + lost (marks_at marks k) ≤ 20
        → mended_at bytes marks k ≡ record {
          packet = record { 0 = packet_bytes (PACKET_DATA * (k % 312)) code };
          fixed = distance (word_at CODEWORD BRANCHES BRANCH_STEP bytes k) code;
          good = true;
        } }
{}

/// Whatever is missing, the number of packets is the one that `Receiver` gives, for the whole list and before its end.
pub fn as_many()
    ensures all { (segments : List (List ℤ)) → length (all_mended segments) ≡ length (all_packets segments) }
    ensures so_far { (segments : List (List ℤ))
        → length (mended_so_far segments) ≡ length (packets_so_far segments) }
{}

/// The packets that one segment more brings follow those given before. So do those that are left at the end of the
/// list.
pub fn goes_on()
    ensures none { mended_so_far [] ≡ [] }
    ensures segment { (segments : List (List ℤ)) (x : List ℤ)
        → (brought : List Received) × (mended_so_far (segments ++ x ∷ []) ≡ mended_so_far segments ++ brought) }
    ensures end { (segments : List (List ℤ)) → (brought : List Received)
        × (all_mended segments ≡ mended_so_far segments ++ brought) }
{}

/// Let each missing symbol of a run become 7, and any other one -7. A byte of the run is marked exactly where the byte
/// of this new run isn't 0. So code that decodes bytes decodes marks too.
pub fn marks_as_bytes()
    ensures { (run : List (List ℤ)) → marks_in run ≡ map is_set (bytes_in (shown_run run)) }
{}
