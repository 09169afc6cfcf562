//! Laws of the outer coding: what is read from what was sent. They are laws of the definitions.

ghost use Rattle.std.specs.Prelude.{◌≡◌, ◌↔◌, ℕ, ◌+◌, ◌-◌, ◌*◌, ◌/◌, ◌%◌, ◌<◌, ◌≤◌, ◌==◌, if◌then◌else◌, ◌++◌, ◌∷◌};
ghost use Rattle.std.specs.Prelude.{[]};
ghost use Rattle.std.specs.Prelude.{List, length, map, take, drop, slice_index, slice_index_or};
ghost use Rattle.std.specs.List.{range_with_len, sum_by};
ghost use Rattle.std.specs.Int.RustNames.{bit_xor};
ghost use Rattle.dtx_galois.specs.Field.{AreBytes};
ghost use Rattle.dtx_laws.specs.Branches.{Branching, leaving_all, after_all};
ghost use Rattle.dtx_laws.specs.Codeword.{IsCodeword};
ghost use Rattle.dtx_laws.specs.Interleaving.{interleaved_at};
ghost use Rattle.dtx_laws.specs.Whitening.{whitened};
ghost use Rattle.dtx_outer.specs.Inner.{IsComplete};
ghost use Rattle.dtx_dvb.specs.Damage.{ArePackets, IsBurst, IsSlight, as_corrected, as_sent, block_in, wrong_in};
ghost use Rattle.dtx_dvb.specs.Randomizer.{randomizer_bit, randomizer_byte, randomizer_bytes, loaded, sequence};
ghost use Rattle.dtx_dvb.specs.Given.{given};
ghost use Rattle.dtx_dvb.specs.Read.{Read, fixed_in, fixed_of, flag_of, flagged_in};
ghost use Rattle.dtx_dvb.specs.Reading.{read_at, read_dvb};
ghost use Rattle.dtx_dvb.specs.Stream.{HasSent, block_of, blocks, blocks_from, dvb, randomized};

use crate::sizes::{BLOCK, BRANCH_STEP, BRANCHES, PERIOD, PERIOD_PACKETS, WAITING};
use dtx_outer::Taken;
use dtx_sizes::{PACKET, SYNC};

/// Let each word that is gathered from a stream's bytes differ from its block in at most eight places. Reading gives
/// each packet but the last eleven, in order and as it was sent, and flags none. It puts right as many bytes as differ.
/// A packet comes back whatever became of the others.
pub fn gives_back()
    ensures read { (packets : List (List ℕ)) (bytes : List ℕ) → ArePackets packets → IsSlight packets bytes
        → read_dvb bytes ≡ map (as_corrected packets bytes) (range_with_len 0 (length packets - WAITING)) }
    ensures packets { (packets : List (List ℕ)) (bytes : List ℕ) → ArePackets packets → IsSlight packets bytes
        → map (λ r. r.packet) (read_dvb bytes) ≡ take (length packets - WAITING) packets }
    ensures unflagged { (packets : List (List ℕ)) (bytes : List ℕ) → ArePackets packets → IsSlight packets bytes
        → flagged_in (read_dvb bytes) ≡ 0 }
    ensures fixed { (packets : List (List ℕ)) (bytes : List ℕ) → ArePackets packets → IsSlight packets bytes
        → fixed_in (read_dvb bytes)
        ≡ sum_by (wrong_in packets bytes) (range_with_len 0 (length packets - WAITING)) }
    ensures one { (packets : List (List ℕ)) (bytes : List ℕ) (k : ℕ) → ArePackets packets → k < length packets
        → wrong_in packets bytes k ≤ 8 → read_at bytes k ≡ as_corrected packets bytes k }
{}

/// A stream's bytes as they were sent are slightly damaged ones. Reading them gives the packets, and puts no byte
/// right.
pub fn undamaged()
    ensures slight { (packets : List (List ℕ)) → IsSlight packets (dvb packets) }
    ensures read { (packets : List (List ℕ)) → ArePackets packets
        → read_dvb (dvb packets) ≡ map as_sent (take (length packets - WAITING) packets) }
{}

/// Where at most 96 bytes of a stream in a row are wrong, its bytes are slightly damaged ones, wherever the wrong bytes
/// stand.
pub fn burst()
    ensures { (packets : List (List ℕ)) (bytes : List ℕ) (from : ℕ) → IsBurst packets bytes from
        → IsSlight packets bytes }
{}

/// The blocks of a stream, block by block: each is a codeword that begins with its randomized packet.
pub fn the_blocks()
    ensures long { (packets : List (List ℕ)) → length (blocks packets) ≡ BLOCK * length packets }
    ensures at { (packets : List (List ℕ)) (k : ℕ) → k < length packets
        → take BLOCK (drop (BLOCK * k) (blocks packets)) ≡ block_in packets k }
    ensures is { (k : ℕ) (packet : List ℕ) → length packet ≡ PACKET → AreBytes packet
        → IsCodeword BLOCK PACKET (block_of k packet) }
    ensures begins { (k : ℕ) (packet : List ℕ) → take PACKET (block_of k packet) ≡ randomized k packet }
    ensures whitened { (k : ℕ) (packet : List ℕ) → length packet ≡ PACKET
        → randomized k packet ≡ whitened randomizer_bytes (PACKET * (k % PERIOD_PACKETS)) packet }
{}

/// Every eighth sync byte is inverted, and the others are as they were, in the blocks and as they are sent.
pub fn sync_bytes()
    ensures blocks { (packets : List (List ℕ)) (k : ℕ) → ArePackets packets → k < length packets
        → slice_index (blocks packets) (BLOCK * k) ≡ (if k % PERIOD_PACKETS == 0 then 0xb8 else SYNC) }
    ensures sent { (packets : List (List ℕ)) (k : ℕ) → ArePackets packets → k < length packets
        → slice_index (dvb packets) (BLOCK * k) ≡ (if k % PERIOD_PACKETS == 0 then 0xb8 else SYNC) }
{}

/// What is sent, byte by byte. As more packets come, what was sent stays, and the bytes that leave the branches follow
/// it.
pub fn sending()
    ensures long { (packets : List (List ℕ)) → length (dvb packets) ≡ BLOCK * length packets }
    ensures at { (packets : List (List ℕ)) (n : ℕ) → n < length (dvb packets)
        → slice_index (dvb packets) n ≡ interleaved_at BRANCHES BRANCH_STEP (blocks packets) n }
    ensures front { (packets more : List (List ℕ))
        → take (BLOCK * length packets) (dvb (packets ++ more)) ≡ dvb packets }
    ensures bytes { (packets more : List (List ℕ)) (place : ℕ) (held : Branching) → HasSent packets held
        → place ≡ length packets % PERIOD_PACKETS
        → dvb (packets ++ more) ≡ dvb packets ++ leaving_all BRANCHES held (blocks_from place more) }
    ensures branches { (packets more : List (List ℕ)) (place : ℕ) (held : Branching) → HasSent packets held
        → place ≡ length packets % PERIOD_PACKETS
        → HasSent (packets ++ more) (after_all BRANCHES held (blocks_from place more)) }
{}

/// What is read, as more bytes come. Each block behind the first eleven brings the next packet, which stays, whatever
/// comes behind it. A packet is read exactly where all bytes of its word are there. Bytes of no whole block bring none.
pub fn reading()
    ensures count { (bytes : List ℕ) → length (read_dvb bytes) ≡ length bytes / BLOCK - WAITING }
    ensures at { (bytes : List ℕ) (k : ℕ) (other : Read) → k < length bytes / BLOCK - WAITING
        → slice_index_or (read_dvb bytes) k other ≡ read_at bytes k }
    ensures there { (bytes : List ℕ) (k : ℕ) → k < length bytes / BLOCK - WAITING
        ↔ IsComplete BLOCK BRANCHES BRANCH_STEP (length bytes) k }
    ensures stays { (bytes more : List ℕ) (k : ℕ) → k < length bytes / BLOCK - WAITING
        → read_at (bytes ++ more) k ≡ read_at bytes k }
    ensures waits { (bytes block : List ℕ) (s : ℕ) → length bytes ≡ BLOCK * s → length block ≡ BLOCK → s < WAITING
        → read_dvb (bytes ++ block) ≡ read_dvb bytes }
    ensures brings { (bytes block : List ℕ) (s : ℕ) → length bytes ≡ BLOCK * s → length block ≡ BLOCK → WAITING ≤ s
        → read_dvb (bytes ++ block) ≡ read_dvb bytes ++ read_at (bytes ++ block) (s - WAITING) ∷ [] }
    ensures loose { (bytes loose : List ℕ) (s : ℕ) → length bytes ≡ BLOCK * s → length loose < BLOCK
        → read_dvb (bytes ++ loose) ≡ read_dvb bytes }
{}

/// The counts of packets that are read in parts, of the packet of one block, and of no packet.
pub fn counted()
    ensures fixed_one { (taken : Taken) (packet : List ℕ) → fixed_in (given taken packet) ≡ fixed_of taken }
    ensures flagged_one { (taken : Taken) (packet : List ℕ) → flagged_in (given taken packet) ≡ flag_of taken }
    ensures fixed { (before behind : List Read)
        → fixed_in (before ++ behind) ≡ fixed_in before + fixed_in behind }
    ensures flagged { (before behind : List Read)
        → flagged_in (before ++ behind) ≡ flagged_in before + flagged_in behind }
{}

/// The sequence of the randomizer. It begins with the fifteen bits that it is loaded with. Each later bit is the sum of
/// the bits 14 and 15 places before it.
pub fn the_sequence()
    ensures long { (n : ℕ) → length (sequence n) ≡ 15 + n }
    ensures loaded { (n i : ℕ) → i < 15 → slice_index (sequence n) i ≡ slice_index loaded i }
    ensures rule { (n t : ℕ) → t < n → slice_index (sequence n) (15 + t)
        ≡ bit_xor (slice_index (sequence n) (1 + t)) (slice_index (sequence n) t) }
    ensures bit { (n t : ℕ) → t < n → slice_index (sequence n) (15 + t) ≡ randomizer_bit t }
{}

/// The bytes of the randomizer, place by place.
pub fn the_bytes()
    ensures long { length randomizer_bytes ≡ PERIOD }
    ensures at { (t : ℕ) → t < PERIOD → slice_index randomizer_bytes t ≡ randomizer_byte t }
    ensures are_bytes { AreBytes randomizer_bytes }
{}
