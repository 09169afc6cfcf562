// The numbers in the data of an operations packet, whose bytes are big-endian (the profile's own).
ghost use Rattle.std.specs.Prelude.{◌≡◌, ◌+◌, ◌^◌, ◌<◌, ◌≤◌, drop, length};
ghost use Rattle.byteorder.specs.Endian.{big_number};

use byteorder::{BigEndian, ByteOrder};

/// The forty bits in the five bytes from a place on.
pub(crate) fn bits_at(bytes: &[u8], place: usize) -> u64
    requires { place + 5 ≤ length bytes.now }
    ensures bits { result ≡ big_number 5 (drop place bytes.now) }
    ensures within { result < 2 ^ 40 }
{
    BigEndian::read_uint(&bytes[place..], 5)
}

/// The ticks in the three bytes from a place on.
pub(crate) fn ticks_at(bytes: &[u8], place: usize) -> u32
    requires { place + 3 ≤ length bytes.now }
    ensures { result ≡ big_number 3 (drop place bytes.now) }
{
    BigEndian::read_u24(&bytes[place..])
}

/// The number of a frame in the four bytes from a place on.
pub(crate) fn frame_at(bytes: &[u8], place: usize) -> u32
    requires { place + 4 ≤ length bytes.now }
    ensures { result ≡ big_number 4 (drop place bytes.now) }
{
    BigEndian::read_u32(&bytes[place..])
}

/// The index in the two bytes from a place on.
pub(crate) fn index_at(bytes: &[u8], place: usize) -> u16
    requires { place + 2 ≤ length bytes.now }
    ensures { result ≡ big_number 2 (drop place bytes.now) }
{
    BigEndian::read_u16(&bytes[place..])
}
