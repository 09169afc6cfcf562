//! What a receiver's `run` gives back of what a sender's `run` left. These statements need no symbol, no codeword and
//! no meaning of a command. Between the two runs the file is carried from one shelf to another, and may be damaged.

ghost use Rattle.std.specs.Prelude.{◌≡◌, ◌≢◌, ◌⊎◌, ◌<◌, ◌≤◌, ◌∷◌, [], ℕ, List, codes, decimal, length};
ghost use Rattle.dtx_meaning.specs.Status.{IsFault};
ghost use Rattle.dtx_packets.specs.Packets.{whole_packets};
ghost use Rattle.dtx_file_laws.specs.Back.{CanBeCoded, IsGivenBack, IsReadBack, Holds};
ghost use Rattle.dtx_file_laws.specs.Damaged.{IsBurst, IsGap, IsNoisy, SparesSyncs};

use crate::laws::acquiring::{a_noisy_capture_is_acquired, a_noisy_capture_is_refined};
use crate::laws::air::{a_stream_is_coded, bursts_come_back, what_was_coded_is_received};
use crate::laws::calls::{
    run_of_acquire, run_of_code, run_of_dvb_code, run_of_dvb_read, run_of_mend, run_of_receive,
    run_of_refine,
};
use crate::laws::dvb_bytes::a_burst_is_read;
use dtx_outside::{Shelf, Sink, Word};
use dtx_packet_jobs::laws::dvb_streams::all_is_sent;
use dtx_sizes::{GROUP_PACKETS, MOST_PACKETS};
use dtx_symbol_laws::acquire_laws::{a_stream_is_acquired, all_is_acquired_of_a_file};
use dtx_symbol_laws::refine_laws::{a_stream_is_refined, all_is_refined_of_a_file};
use dtx_top::Status;
use std::alloc::Global;

/// Runs `code IN SENT` and then `receive SENT OUT` over the same files. If both answer `Done`, OUT is the packets of IN
/// that come back, with 0x47 as their sync bytes, and no other. No byte is put right, and no packet is flagged. Let IN
/// have at least four packets and at most `MOST_PACKETS`, which begin with 0x47 or with the mark 0xB8. Let the names be
/// different and not empty. Then `code` answers `Done`, an I/O error or out of memory. If it is done, the same holds of
/// `receive`.
pub fn run_there_and_back<S: Shelf, O: Sink>(
    alloc: Global,
    words: &(&[Word], &[Word]),
    shelf: &mut S,
    out: &mut O,
) -> (Status, Status)
    ensures back { (input sent output stream : List ℕ) → words.now.0.now ≡ codes "code" ∷ input ∷ sent ∷ []
        → words.now.1.now ≡ codes "receive" ∷ sent ∷ output ∷ []
        → Holds (S.files shelf.old) input stream → result.0 ≡ Status.Done → result.1 ≡ Status.Done
        → IsGivenBack stream 0 output (S.files shelf.new) (O.written out.new) }
    ensures first { (input sent stream : List ℕ) → words.now.0.now ≡ codes "code" ∷ input ∷ sent ∷ []
        → input ≢ [] → sent ≢ [] → input ≢ sent → whole_packets stream ≤ MOST_PACKETS → CanBeCoded stream
        → Holds (S.files shelf.old) input stream → (result.0 ≡ Status.Done) ⊎ IsFault result.0 }
    ensures second { (input sent output stream : List ℕ) → words.now.0.now ≡ codes "code" ∷ input ∷ sent ∷ []
        → words.now.1.now ≡ codes "receive" ∷ sent ∷ output ∷ []
        → sent ≢ [] → output ≢ [] → sent ≢ output → GROUP_PACKETS ≤ whole_packets stream
        → Holds (S.files shelf.old) input stream → result.0 ≡ Status.Done
        → (result.1 ≡ Status.Done) ⊎ IsFault result.1 }
{
    a_stream_is_coded();
    what_was_coded_is_received();
    shelf.known();
    let sent = run_of_code(alloc, words.0, shelf, out);
    let received = run_of_receive(alloc, words.1, shelf, out);
    (sent, received)
}

/// Runs `code IN SENT` over a sender's files, and then `receive GOT OUT` over a receiver's. Let both answer `Done`. If
/// GOT is SENT, OUT is the packets of IN that come back (`packets_back`). The same holds if at most 2,022 bytes of GOT
/// in a row are wrong, from any byte on, and these spare the field syncs.
pub fn run_of_code_and_receive<S: Shelf, R: Shelf, O: Sink>(
    alloc: Global,
    words: &(&[Word], &[Word]),
    sender: &mut S,
    receiver: &mut R,
    out: &mut O,
) -> (Status, Status)
    ensures undamaged { (input sent got output stream symbols : List ℕ)
        → words.now.0.now ≡ codes "code" ∷ input ∷ sent ∷ [] → words.now.1.now ≡ codes "receive" ∷ got ∷ output ∷ []
        → Holds (S.files sender.old) input stream → result.0 ≡ Status.Done
        → Holds (S.files sender.new) sent symbols
        → Holds (R.files receiver.old) got symbols → result.1 ≡ Status.Done
        → IsGivenBack stream 0 output (R.files receiver.new) (O.written out.new) }
    ensures burst { (input sent got output stream symbols file : List ℕ) (count from : ℕ)
        → words.now.0.now ≡ codes "code" ∷ input ∷ sent ∷ [] → words.now.1.now ≡ codes "receive" ∷ got ∷ output ∷ []
        → Holds (S.files sender.old) input stream → result.0 ≡ Status.Done
        → Holds (S.files sender.new) sent symbols
        → count ≤ 2022 → IsBurst count from symbols file → SparesSyncs count from (length file)
        → Holds (R.files receiver.old) got file → result.1 ≡ Status.Done
        → (fixed : ℕ) × IsGivenBack stream fixed output (R.files receiver.new) (O.written out.new) }
{
    what_was_coded_is_received();
    bursts_come_back();
    sender.known();
    let sent = run_of_code(alloc, words.0, sender, out);
    let received = run_of_receive(alloc, words.1, receiver, out);
    (sent, received)
}

/// Runs `code IN SENT` over a sender's files, and then `mend GOT OUT` over a receiver's. Let both answer `Done`. Let
/// GOT be SENT, except for missing bytes (0x80) among at most 4,141 in a row, from any byte on, and let these spare the
/// field syncs. Then OUT is the packets of IN that come back.
pub fn run_of_code_and_mend<S: Shelf, R: Shelf, O: Sink>(
    alloc: Global,
    words: &(&[Word], &[Word]),
    sender: &mut S,
    receiver: &mut R,
    out: &mut O,
) -> (Status, Status)
    ensures { (input sent got output stream symbols file : List ℕ) (count from : ℕ)
        → words.now.0.now ≡ codes "code" ∷ input ∷ sent ∷ [] → words.now.1.now ≡ codes "mend" ∷ got ∷ output ∷ []
        → Holds (S.files sender.old) input stream → result.0 ≡ Status.Done
        → Holds (S.files sender.new) sent symbols
        → count ≤ 4141 → IsGap count from symbols file → SparesSyncs count from (length file)
        → Holds (R.files receiver.old) got file → result.1 ≡ Status.Done
        → (fixed : ℕ) × IsGivenBack stream fixed output (R.files receiver.new) (O.written out.new) }
{
    bursts_come_back();
    sender.known();
    let sent = run_of_code(alloc, words.0, sender, out);
    let mended = run_of_mend(alloc, words.1, receiver, out);
    (sent, mended)
}

/// Runs `code IN SENT` over a sender's files, and then `acquire SCALE GOT OUT` over a receiver's. Let both answer
/// `Done`. If each sample of GOT differs from SCALE times the symbol of SENT by less than SCALE, OUT is SENT, byte for
/// byte.
pub fn run_of_code_and_acquire<S: Shelf, R: Shelf, O: Sink>(
    alloc: Global,
    words: &(&[Word], &[Word]),
    sender: &mut S,
    receiver: &mut R,
    out: &mut O,
) -> (Status, Status)
    ensures { (input sent got output stream symbols file : List ℕ) (scale : ℕ)
        → words.now.0.now ≡ codes "code" ∷ input ∷ sent ∷ []
        → words.now.1.now ≡ codes "acquire" ∷ decimal scale ∷ got ∷ output ∷ [] → 0 < scale → scale ≤ 18
        → Holds (S.files sender.old) input stream → result.0 ≡ Status.Done → Holds (S.files sender.new) sent symbols
        → IsNoisy scale symbols file → Holds (R.files receiver.old) got file → result.1 ≡ Status.Done
        → Holds (R.files receiver.new) output symbols }
{
    a_noisy_capture_is_acquired();
    a_stream_is_acquired();
    all_is_acquired_of_a_file();
    let sent = run_of_code(alloc, words.0, sender, out);
    let acquired = run_of_acquire(alloc, words.1, receiver, out);
    (sent, acquired)
}

/// Runs `code IN SENT` over a sender's files, and then `refine SCALE ROUNDS GOT OUT` over a receiver's. Let both answer
/// `Done`. If each sample of GOT differs from SCALE times the symbol of SENT by less than SCALE, OUT is SENT, byte for
/// byte.
pub fn run_of_code_and_refine<S: Shelf, R: Shelf, O: Sink>(
    alloc: Global,
    words: &(&[Word], &[Word]),
    sender: &mut S,
    receiver: &mut R,
    out: &mut O,
) -> (Status, Status)
    ensures { (input sent got output stream symbols file : List ℕ) (scale rounds : ℕ)
        → words.now.0.now ≡ codes "code" ∷ input ∷ sent ∷ []
        → words.now.1.now ≡ codes "refine" ∷ decimal scale ∷ decimal rounds ∷ got ∷ output ∷ []
        → 0 < scale → scale ≤ 18 → 0 < rounds → rounds ≤ 32
        → Holds (S.files sender.old) input stream → result.0 ≡ Status.Done → Holds (S.files sender.new) sent symbols
        → IsNoisy scale symbols file → Holds (R.files receiver.old) got file → result.1 ≡ Status.Done
        → Holds (R.files receiver.new) output symbols }
{
    a_noisy_capture_is_refined();
    a_stream_is_refined();
    all_is_refined_of_a_file();
    sender.known();
    let sent = run_of_code(alloc, words.0, sender, out);
    let refined = run_of_refine(alloc, words.1, receiver, out);
    (sent, refined)
}

/// Runs `dvb code IN SENT` over a sender's files, and then `dvb read GOT OUT` over a receiver's. Let both answer
/// `Done`. If GOT is SENT with at most 96 wrong bytes in a row, OUT is IN's whole packets but the last eleven.
pub fn run_of_dvb_code_and_read<S: Shelf, R: Shelf, O: Sink>(
    alloc: Global,
    words: &(&[Word], &[Word]),
    sender: &mut S,
    receiver: &mut R,
    out: &mut O,
) -> (Status, Status)
    ensures { (input sent got output stream bytes file : List ℕ) (from : ℕ)
        → words.now.0.now ≡ codes "dvb" ∷ codes "code" ∷ input ∷ sent ∷ []
        → words.now.1.now ≡ codes "dvb" ∷ codes "read" ∷ got ∷ output ∷ []
        → Holds (S.files sender.old) input stream → result.0 ≡ Status.Done → Holds (S.files sender.new) sent bytes
        → IsBurst 96 from bytes file → Holds (R.files receiver.old) got file → result.1 ≡ Status.Done
        → (fixed : ℕ) × IsReadBack stream fixed output (R.files receiver.new) (O.written out.new) }
{
    all_is_sent();
    a_burst_is_read();
    sender.known();
    let sent = run_of_dvb_code(alloc, words.0, sender, out);
    let read = run_of_dvb_read(alloc, words.1, receiver, out);
    (sent, read)
}
