// The bytes of a transport packet (ISO/IEC 13818-1, 2.4.3.2).

/// How many bytes a packet has.
pub const PACKET: usize = 188;

/// How many of them are coded: all but its sync byte (ATSC A/53 Part 2, data randomizer).
pub const PACKET_DATA: usize = 187;

/// The sync byte of a packet, which is its first byte (ISO/IEC 13818-1, 2.4.3.3).
pub const SYNC: u8 = 0x47;

/// The sync byte of a packet that is a cadence mark (the profile's own, in the manner of ATSC A/110).
pub const MARK: u8 = 0xB8;

/// The packet identifier of a null packet (ISO/IEC 13818-1, 2.4.3.3).
pub const NULL_PID: u16 = 0x1FFF;

/// The packet identifier of an operations packet, and of a placeholder that becomes one (the profile's own).
pub const OPERATIONS_PID: u16 = 0x1FFA;
