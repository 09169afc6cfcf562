//! Laws of the chain from packets to symbols and back. Undamaged symbols are one run, whose packets are those that were
//! sent. A word with few wrong bytes gives its packet back.

ghost use Rattle.std.specs.Prelude.{◌≡◌, ℕ, ℤ, ◌≢◌, ◌+◌, ◌*◌, ◌/◌, ◌%◌, ◌<◌, ◌≤◌, Bool, true, false, List, [], ◌∷◌};
ghost use Rattle.std.specs.Prelude.{length};
ghost use Rattle.std.specs.Prelude.{All, map, slice_index_or, slice_range};
ghost use Rattle.std.specs.List.{list_all};
ghost use Rattle.dtx_galois.specs.Field.{AreBytes};
ghost use Rattle.dtx_laws.specs.Codeword.{distance};
ghost use Rattle.dtx_frame.specs.Detection.{looks_like};
ghost use Rattle.dtx_frame.specs.Segments.{field_sync};
ghost use Rattle.dtx_coder.specs.Stream.{a53, levels, segment};
ghost use Rattle.dtx_outer.specs.Inner.{IsComplete, word_at};
ghost use Rattle.dtx_receiver.specs.Packets.{all_packets, run_packets, received, received_at};
ghost use Rattle.dtx_receiver.specs.declared.batch.Received.{Received};
ghost use Rattle.dtx_receiver.specs.Runs.{runs};
ghost use Rattle.dtx_chain.specs.Damage.{AreReceived, IsNear, IsSlight, as_corrected, codeword_at, from_sync};
ghost use Rattle.dtx_chain.specs.Damage.{damaged_symbols, numbers_in, packet_behind, to_sync, word_in, ArePackets};
ghost use Rattle.dtx_chain.specs.Damage.{as_sent, whole_words, as_received};

use dtx_sizes::{FIELD_PACKETS, FIELD_SEGMENTS, GROUP_PACKETS, PACKET};

/// Of undamaged symbols each packet whose bytes are all there comes back, in order, with 0x47 as its sync byte. None is
/// flagged, and no byte is put right.
pub fn received_undamaged()
    ensures run { (packets : List (List ℕ)) → GROUP_PACKETS ≤ length packets → runs (a53 packets) ≡ a53 packets ∷ [] }
    ensures good { (packets : List (List ℕ)) → GROUP_PACKETS ≤ length packets → ArePackets packets
        → all_packets (a53 packets) ≡ map (as_sent packets) (whole_words packets) }
    ensures packets { (packets : List (List ℕ)) → GROUP_PACKETS ≤ length packets → ArePackets packets
        → received (a53 packets) ≡ map (λ k. as_received (slice_index_or packets k [])) (whole_words packets) }
{}

/// Let packet f of a stream begin a field, as the packet after a field sync does. Word j of the bytes of any run gives
/// packet f + j back if the word differs from that packet's codeword in at most ten bytes. These are the bytes put
/// right. The packet is received good and with 0x47 as its sync byte. The run may have any bytes, of any number. If all
/// bytes of word j are there, its packet is number j of those that the run gives.
pub fn gives_back()
    ensures packet { (packets : List (List ℕ)) (bytes : List ℕ) (f j : ℕ) → ArePackets packets → f % FIELD_PACKETS ≡ 0
        → f + j < length packets → IsNear packets (f + j) (word_at 207 52 4 bytes j)
        → received_at bytes j ≡ as_corrected packets (f + j) (word_at 207 52 4 bytes j) }
    ensures place { (bytes : List ℕ) (j : ℕ) (other : Received) → IsComplete 207 52 4 (length bytes) j
        → slice_index_or (run_packets bytes) j other ≡ received_at bytes j }
{}

/// If a packet comes back good and as it was sent, with 0x47 as its sync byte, its word differed from the packet's
/// codeword in at most ten bytes.
pub fn what_comes_back_was_near()
    ensures { (packets : List (List ℕ)) (bytes : List ℕ) (f j : ℕ) → ArePackets packets → f % FIELD_PACKETS ≡ 0
        → f + j < length packets → (received_at bytes j).good ≡ true
        → (received_at bytes j).packet.0 ≡ as_received (slice_index_or packets (f + j) [])
        → IsNear packets (f + j) (word_at 207 52 4 bytes j) }
{}

/// Let segments in a row of a stream be received with slight damage, with a field sync among them. Then they have one
/// run, which begins with their first field sync. The packets received are exactly those of the stream whose bytes are
/// all there, from the packet after that field sync on, in order. Each is good and has 0x47 as its sync byte.
pub fn gives_all_back()
    ensures run { (packets : List (List ℕ)) (first : ℕ) (sent got : List (List ℤ)) → AreReceived packets first sent got
        → to_sync first < length sent → IsSlight packets first sent got
        → runs got ≡ from_sync first got ∷ [] }
    ensures packets { (packets : List (List ℕ)) (first : ℕ) (sent got : List (List ℤ))
        → AreReceived packets first sent got → to_sync first < length sent → IsSlight packets first sent got
        → ArePackets packets
        → received got ≡ map (λ j. as_received (slice_index_or packets (packet_behind first + j) []))
        (numbers_in (from_sync first got)) }
    ensures good { (packets : List (List ℕ)) (first : ℕ) (sent got : List (List ℤ)) → AreReceived packets first sent got
        → to_sync first < length sent → IsSlight packets first sent got → ArePackets packets
        → all_packets got ≡ map (λ j. as_corrected packets (packet_behind first + j) (word_in first got j))
        (numbers_in (from_sync first got)) }
    ensures unflagged { (packets : List (List ℕ)) (first : ℕ) (sent got : List (List ℤ))
        → AreReceived packets first sent got → to_sync first < length sent → IsSlight packets first sent got
        → ArePackets packets
        → list_all (λ r. r.good) (all_packets got) ≡ true }
{}

/// Eleven wrong bytes are too many. For each packet of a stream some word of 207 bytes differs from the packet's
/// codeword in eleven bytes, and gives another packet wherever a run has it.
pub fn eleven_are_too_many()
    ensures { (packets : List (List ℕ)) (f j : ℕ) → ArePackets packets → f % FIELD_PACKETS ≡ 0 → f + j < length packets
        → (word : List ℕ) × (length word ≡ 207) × AreBytes word × (distance word (codeword_at packets (f + j)) ≡ 11)
        × ((bytes : List ℕ) → word_at 207 52 4 bytes j ≡ word
        → (received_at bytes j).packet.0 ≢ as_received (slice_index_or packets (f + j) [])) }
{}

/// A data segment of a stream isn't taken for a field sync if at most 31 of its first 515 symbols are damaged. The
/// reason: a segment looks like a field sync if at most 32 of these symbols differ, and an undamaged data segment
/// differs in 64 or more.
pub fn a_damaged_data_segment_is_no_sync()
    ensures { (packets : List (List ℕ)) (n : ℕ) (got : List ℤ) → n < length (a53 packets) → n % FIELD_SEGMENTS ≢ 0
        → damaged_symbols (slice_index_or (a53 packets) n []) got ≤ 31 → looks_like got ≡ false }
{}

/// Each packet received has 188 bytes, whatever the segments are.
pub fn received_packets_are_whole()
    ensures { (segments : List (List ℤ)) → All (λ packet. length packet ≡ PACKET) (received segments) }
{}

/// Undamaged symbols count as slightly damaged. Take segments in a row of a stream, from any segment on. If they are
/// received as they were sent, they meet each condition of slight damage.
pub fn no_damage()
    ensures received { (packets : List (List ℕ)) (first end : ℕ)
        → AreReceived packets first (slice_range (a53 packets) first end) (slice_range (a53 packets) first end) }
    ensures slight { (packets : List (List ℕ)) (first : ℕ) (sent : List (List ℤ))
        → AreReceived packets first sent sent → ArePackets packets → IsSlight packets first sent sent }
{}

/// Damage that ends before the first field sync is slight if no data segment there has more than 31 damaged symbols
/// among its first 515.
pub fn damage_before_the_first_sync_is_slight()
    ensures { (packets : List (List ℕ)) (first : ℕ) (sent got : List (List ℤ)) → AreReceived packets first sent got
        → ArePackets packets → from_sync first got ≡ from_sync first sent
        → ((i : ℕ) → i < length sent → i < to_sync first
        → damaged_symbols (slice_index_or sent i []) (slice_index_or got i []) ≤ 31)
        → IsSlight packets first sent got }
{}

/// Where segments stand in a stream. Its field syncs are the segments at multiples of 313. The segment of packet k
/// stands k + k / 312 + 1 places after the stream's first segment. So `to_sync` gives the distance to the first field
/// sync from any segment on. `packet_behind` gives the packet whose segment follows that sync and begins a field.
pub fn places()
    ensures sync { (packets : List (List ℕ)) (n : ℕ) → n < length (a53 packets) → n % FIELD_SEGMENTS ≡ 0
        → (second : Bool) × (last : List ℤ) × (slice_index_or (a53 packets) n [] ≡ field_sync second last) }
    ensures segment { (packets : List (List ℕ)) (k : ℕ) → k < GROUP_PACKETS * (length packets / GROUP_PACKETS)
        → slice_index_or (a53 packets) (k + k / FIELD_PACKETS + 1) [] ≡ segment (levels packets) k }
    ensures first { (first : ℕ) → (first + to_sync first) % FIELD_SEGMENTS ≡ 0 }
    ensures none { (first i : ℕ) → i < to_sync first → (first + i) % FIELD_SEGMENTS ≢ 0 }
    ensures behind { (first : ℕ) → packet_behind first + packet_behind first / FIELD_PACKETS ≡ first + to_sync first }
    ensures begins { (first : ℕ) → packet_behind first % FIELD_PACKETS ≡ 0 }
{}
