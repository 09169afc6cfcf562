// The packets and segments of fields and frames (ATSC A/53 Part 2, data field), and a packet's place among them.
ghost use Rattle.std.specs.Prelude.{◌≡◌};
ghost use Rattle.dtx_sizes.specs.Fields as spec;

/// How many packets make a group. After a group each trellis coder begins a byte again.
pub const GROUP_PACKETS: usize = 4;

/// How many packets a field has, which is how many data segments it has.
pub const FIELD_PACKETS: u16 = 312;

/// How many segments a field has: its field sync and its data segments.
pub const FIELD_SEGMENTS: u16 = 313;

/// How many packets a frame has, which is two fields. One cadence mark is as many packets behind the one before (the
/// profile's own).
pub const FRAME_PACKETS: u16 = 624;

/// The place of a packet in a stream that begins with a frame.
#[derive(Clone, Copy, Debug, PartialEq, Eq)]
pub struct FieldPlace {
    /// Its place in its field, below 312.
    pub place: u16,
    /// Whether its field is the second one of a frame.
    pub second: bool,
}

/// The place of packet `index`.
pub fn field_place(index: u64) -> FieldPlace
    ensures { result ≡ spec.field_place index }
{
    FieldPlace {
        place: (index % FIELD_PACKETS as u64) as u16,
        second: index % FRAME_PACKETS as u64 >= FIELD_PACKETS as u64,
    }
}
