// The packets of made streams (the profile's own).
ghost use Rattle.std.specs.Prelude.{◌≡◌, ◌++◌};
ghost use Rattle.dtx_make.specs.Made.{made_packet, made_payload, first_number, next_number};

use dtx_packets::Packet;
use dtx_sizes::{FIELD_PACKETS, PACKET};

/// How many bytes the header of a packet has (ISO/IEC 13818-1, 2.4.3.2).
const HEADER: usize = 4;

/// How many bytes stand behind the header.
const PAYLOAD: usize = PACKET - HEADER;

/// The place of a field at which a placeholder of an operations packet stands.
const PLACEHOLDER_PLACE: u64 = 100;

/// The multiplier of a linear congruential generator modulo 2^64. The highest bytes of its numbers are a payload.
const MULTIPLIER: u64 = 6_364_136_223_846_793_005;

/// The generator's increment. A packet's index times the increment is added to the packet's first number.
const INCREMENT: u64 = 1_442_695_040_888_963_407;

/// Packet `index` of the made stream of a seed. In each field of 312 packets packet 100 is a placeholder, with nothing
/// but zeros behind its header. The others have payloads that look like noise, and their index modulo 16 as counter. A
/// made stream is a workload and no legal programme.
#[tactic(auto, unfolding(crate::specs::Made::made_packet))]
pub fn packet(seed: u64, index: u64) -> Packet
    ensures { result.0 ≡ made_packet seed index }
{
    if index % FIELD_PACKETS as u64 == PLACEHOLDER_PLACE {
        joined(&[0x47, 0x1F, 0xFA, 0x10], &[0; PAYLOAD])
    } else {
        let counter = (index % 16) as u8;
        joined(&[0x47, 0x00, 0x31, 0x10 + counter], &payload(seed, index))
    }
}

/// The packet with this header and this payload.
fn joined(header: &[u8; HEADER], payload: &[u8; PAYLOAD]) -> Packet
    ensures { result.0 ≡ header.now ++ payload.now }
{
    let mut bytes = [0; PACKET];
    bytes[..HEADER].copy_from_slice(header);
    bytes[HEADER..].copy_from_slice(payload);
    Packet(bytes)
}

/// The payload of a packet: the highest bytes of the numbers behind its first one.
fn payload(seed: u64, index: u64) -> [u8; PAYLOAD]
    ensures { result ≡ made_payload seed index }
{
    let mut number = first(seed, index);
    let mut bytes = [0; PAYLOAD];
    for byte in bytes.iter_mut() {
        number = next(number);
        *byte = (number >> 56) as u8;
    }
    bytes
}

/// The generator's first number for a packet.
fn first(seed: u64, index: u64) -> u64
    ensures { result ≡ first_number seed index }
{
    let shift = index.wrapping_mul(INCREMENT);
    seed.wrapping_add(1)
        .wrapping_mul(MULTIPLIER)
        .wrapping_add(shift)
}

/// The generator's next number.
fn next(number: u64) -> u64
    ensures { result ≡ next_number number }
{
    number.wrapping_mul(MULTIPLIER).wrapping_add(INCREMENT)
}
