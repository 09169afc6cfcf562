//! Laws of streams that the outer coding of DVB sends and reads back (EN 300 429).

ghost use Rattle.std.specs.Prelude.{◌≡◌, ◌<◌, ◌≤◌, ℕ, List, false};
ghost use Rattle.dtx_dvb.specs.Damage.{ArePackets, IsSlight};
ghost use Rattle.dtx_dvb.specs.Stream.{dvb};
ghost use Rattle.dtx_engine.specs.Recipe.{meaning_of_file};
ghost use Rattle.dtx_packets.specs.Packets.{packet_at, packets_of, whole_packets};
ghost use Rattle.dtx_recipes.specs.DvbBack.{HaveSyncs, back_of, read_of, read_until, sent_of, sent_until};
ghost use Rattle.dtx_recipes.specs.DvbBack.{wrong_in_all};
ghost use Rattle.dtx_recipes.specs.DvbCode.{dvb_coding};
ghost use Rattle.dtx_recipes.specs.DvbRead.{dvb_reading, whole_blocks};
ghost use Rattle.dtx_recipes.specs.Place.{has_sync};
ghost use Rattle.dtx_recipes.specs.DvbCode as shapes;

use dtx_meaning::Status;
use dtx_sizes::MOST_PACKETS;

/// What `dvb code` sends of a stream. Where all whole packets begin with 0x47 and they are at most MOST_PACKETS, all
/// are sent. Where one of the first MOST_PACKETS packets begins with another byte, the first such packet is refused,
/// and those before it are sent. Where the first MOST_PACKETS packets begin with 0x47 and there are more, the answer is
/// `TooLong`, and the first MOST_PACKETS are sent.
pub fn all_is_sent()
    ensures whole { (names : List (List ℕ)) (stream : List ℕ) → whole_packets stream ≤ MOST_PACKETS
        → HaveSyncs stream (whole_packets stream)
        → meaning_of_file shapes.dvb_packets dvb_coding names stream ≡ sent_of names stream }
    ensures refused { (names : List (List ℕ)) (stream : List ℕ) (k : ℕ) → k < whole_packets stream → k < MOST_PACKETS
        → HaveSyncs stream k → has_sync k (packet_at stream k) ≡ false
        → meaning_of_file shapes.dvb_packets dvb_coding names stream ≡ sent_until names stream k (Status.Packet k) }
    ensures too_long { (names : List (List ℕ)) (stream : List ℕ) → MOST_PACKETS < whole_packets stream
        → HaveSyncs stream MOST_PACKETS
        → meaning_of_file shapes.dvb_packets dvb_coding names stream
        ≡ sent_until names stream MOST_PACKETS Status.TooLong }
{}

/// What `dvb read` reads. Where there are at most MOST_PACKETS whole blocks, all are read. Where there are more, the
/// answer is `TooLong`, and OUT has the packets that the first MOST_PACKETS blocks give. They are the first of all
/// packets.
pub fn all_is_read()
    ensures whole { (names : List (List ℕ)) (bytes : List ℕ) → whole_blocks bytes ≤ MOST_PACKETS
        → meaning_of_file shapes.blocks dvb_reading names bytes ≡ read_of names bytes }
    ensures too_long { (names : List (List ℕ)) (bytes : List ℕ) → MOST_PACKETS < whole_blocks bytes
        → meaning_of_file shapes.blocks dvb_reading names bytes ≡ read_until names bytes }
{}

/// Let a stream have packets that begin with 0x47, and let what was sent of it have at most eight wrong bytes in each
/// word that is gathered. Then `dvb read` writes the stream's packets but the last eleven, none of them flagged. It
/// does the same for undamaged bytes.
pub fn streams_come_back()
    ensures damaged { (names : List (List ℕ)) (stream bytes : List ℕ) → whole_packets stream ≤ MOST_PACKETS
        → ArePackets (packets_of stream) → IsSlight (packets_of stream) bytes
        → meaning_of_file shapes.blocks dvb_reading names bytes
        ≡ back_of names stream (wrong_in_all (packets_of stream) bytes) }
    ensures undamaged { (names : List (List ℕ)) (stream : List ℕ) → whole_packets stream ≤ MOST_PACKETS
        → ArePackets (packets_of stream)
        → meaning_of_file shapes.blocks dvb_reading names (dvb (packets_of stream)) ≡ back_of names stream 0 }
{}
