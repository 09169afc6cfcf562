// The units in which the commands of the outer coding read their inputs.
ghost use Rattle.std.specs.Prelude.{◌≡◌};
ghost use Rattle.dtx_engine.specs.Recipe.{IsSound};
ghost use Rattle.dtx_recipes.specs.DvbCode as shapes;

use dtx_dvb::BLOCK;
use dtx_engine::Shape;
use dtx_packets::PIECE_PACKETS;
use dtx_sizes::{MOST_PACKETS, PACKET};

/// How many packets are read at once where they are sent as blocks of 204 bytes. These blocks fill more than a piece of
/// the output. So they go straight to the output's file, but for parts of a page, which are gathered first.
pub const DVB_PIECE_PACKETS: usize = 696;

/// How many packets, or blocks, go through the interleaver in one call, both ways: a multiple of four. A call costs
/// something for each branch, however few bytes come, and with 13,056 bytes that is little. A batch's blocks and
/// packets are 25 kB, which still fit a processor's first cache.
pub const BATCH_PACKETS: usize = 64;

/// The blocks of a batch, in bytes.
pub const BATCH_BYTES: usize = BLOCK * BATCH_PACKETS;

/// Packets of 188 bytes that are sent as blocks of 204 (EN 300 429). Each packet is a unit of its own.
pub fn dvb_packets() -> Shape
    ensures same { result ≡ shapes.dvb_packets }
    ensures sound { IsSound result }
{
    Shape {
        unit: PACKET,
        units: DVB_PIECE_PACKETS,
        group: 1,
        limit: MOST_PACKETS,
    }
}

/// Blocks of 204 bytes (EN 300 429, 7.2). An input may have as many blocks as a stream may have packets.
pub fn blocks() -> Shape
    ensures same { result ≡ shapes.blocks }
    ensures sound { IsSound result }
{
    Shape {
        unit: BLOCK,
        units: PIECE_PACKETS,
        group: 1,
        limit: MOST_PACKETS,
    }
}
