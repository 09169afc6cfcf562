// The units in which the commands read their inputs, except those of the DVB outer coding.
ghost use Rattle.std.specs.Prelude.{◌≡◌};
ghost use Rattle.dtx_engine.specs.Recipe.{IsSound};
ghost use Rattle.dtx_forms.specs.Shapes as shapes;

use dtx_engine::Shape;
use dtx_packets::PIECE_PACKETS;
use dtx_sizes::{
    FIELD_SEGMENTS, GROUP_PACKETS, MOST_PACKETS, MOST_SEGMENTS, MOST_SYMBOLS, PACKET, SEGMENT,
};

/// How many segments are read at once: those of a field.
pub const PIECE_SEGMENTS: usize = FIELD_SEGMENTS as usize;

/// How many bytes are read at once where a unit is one byte.
pub const PIECE_BYTES: usize = 262_144;

/// Packets of 188 bytes (ISO/IEC 13818-1, 2.4.3.2), in groups of four.
pub fn packets() -> Shape
    ensures same { result ≡ shapes.packets }
    ensures sound { IsSound result }
{
    Shape {
        unit: PACKET,
        units: PIECE_PACKETS,
        group: GROUP_PACKETS as u64,
        limit: MOST_PACKETS,
    }
}

/// How many packets are read at once to be coded: four batches of 52, each of which is interleaved at once. Their
/// groups have 173,056 symbols, which is more than a piece of the output. So whole pages of them go straight to the
/// file, and only parts of a page are gathered. More packets would save few system calls, and take more memory.
pub const CODED_PACKETS: usize = 208;

/// Packets of 188 bytes that are coded, in groups of four.
pub fn coded_packets() -> Shape
    ensures same { result ≡ shapes.coded_packets }
    ensures sound { IsSound result }
{
    Shape {
        unit: PACKET,
        units: CODED_PACKETS,
        group: GROUP_PACKETS as u64,
        limit: MOST_PACKETS,
    }
}

/// Packets of 188 bytes, each a group by itself.
pub fn single_packets() -> Shape
    ensures same { result ≡ shapes.single_packets }
    ensures sound { IsSound result }
{
    Shape {
        unit: PACKET,
        units: PIECE_PACKETS,
        group: 1,
        limit: MOST_PACKETS,
    }
}

/// Segments of 832 symbols, one byte each (ATSC A/53 Part 2).
pub fn segments() -> Shape
    ensures same { result ≡ shapes.segments }
    ensures sound { IsSound result }
{
    Shape {
        unit: SEGMENT,
        units: PIECE_SEGMENTS,
        group: 1,
        limit: MOST_SEGMENTS,
    }
}

/// Single bytes, each a group by itself.
pub fn single_bytes() -> Shape
    ensures same { result ≡ shapes.single_bytes }
    ensures sound { IsSound result }
{
    Shape {
        unit: 1,
        units: PIECE_BYTES,
        group: 1,
        limit: MOST_SYMBOLS,
    }
}
