//! What is read from the bytes that `dvb code` wrote, with damage (EN 300 429).

ghost use Rattle.std.specs.Prelude.{◌≡◌, ◌≤◌, ℕ, List};
ghost use Rattle.dtx_dvb.specs.Damage.{ArePackets};
ghost use Rattle.dtx_dvb.specs.Stream.{dvb};
ghost use Rattle.dtx_engine.specs.Recipe.{meaning_of_file};
ghost use Rattle.dtx_packets.specs.Packets.{packets_of, whole_packets};
ghost use Rattle.dtx_recipes.specs.DvbBack.{back_of};
ghost use Rattle.dtx_recipes.specs.DvbRead.{dvb_reading};
ghost use Rattle.dtx_recipes.specs.DvbCode as shapes;
ghost use Rattle.dtx_file_laws.specs.Damaged.{IsBurst};

use dtx_dvb::laws::{burst, sending};
use dtx_packet_jobs::laws::dvb_streams::streams_come_back;
use dtx_sizes::MOST_PACKETS;

/// Let at most 96 bytes in a row be wrong in what `dvb code` wrote of a stream, with any values and in any place. Then
/// `dvb read` writes the stream's packets as they were, but for the last eleven. None is flagged.
pub fn a_burst_is_read()
    ensures { (names : List (List ℕ)) (stream bytes : List ℕ) (from : ℕ) → whole_packets stream ≤ MOST_PACKETS
        → ArePackets (packets_of stream) → IsBurst 96 from (dvb (packets_of stream)) bytes
        → (fixed : ℕ) × (meaning_of_file shapes.blocks dvb_reading names bytes ≡ back_of names stream fixed) }
{
    burst();
    sending();
    streams_come_back();
}
