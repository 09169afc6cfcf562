//! The outer coding of packets.

ghost use Rattle.std.specs.Prelude.{◌≡◌, ◌+◌, ◌*◌, ◌%◌, ◌≤◌, IfOk, drop, length, map};
ghost use Rattle.dtx_laws.specs.Branches.{leaving_all, after_all};
ghost use Rattle.dtx_whiten.specs.Randomizer.{randomizer_bytes};
ghost use Rattle.dtx_coder.specs.Stream.{coded_from};
ghost use Rattle.dtx_coder.specs.Groups.{zero_branches};

use crate::tables::Tables;
use dtx_outer::Outer;
use dtx_packets::Packet;
use dtx_rs::Rs;
use dtx_sizes::{
    BRANCH_STEP, BRANCHES, CODEWORD, FIELD_PACKETS, GROUP_BYTES, GROUP_PACKETS, PACKET, PACKET_DATA,
};
use dtx_spread::Branches;
use dtx_whiten::Atsc;
use std::alloc::{AllocError, Global};
use std::rc::Rc;

/// The randomizer, the Reed-Solomon encoder and the interleaver of the standard.
pub(crate) type OuterCoding = Outer<
    Rc<Atsc>,
    Rc<Rs<CODEWORD, PACKET_DATA>>,
    Branches<BRANCHES, BRANCH_STEP>,
    CODEWORD,
    PACKET_DATA,
    BRANCHES,
    BRANCH_STEP,
>;

/// The outer coding by these tables, with zeros in every branch. The only error is out of memory.
pub(crate) fn new_outer_coding(alloc: Global, tables: &Tables) -> Result<OuterCoding, AllocError>
    ensures { IfOk result (λ outer. outer ≡ record { white = randomizer_bytes; branches = zero_branches }) }
{
    Ok(Outer::new(
        tables.whitener.clone()?,
        tables.code.clone()?,
        Branches::new(alloc)?,
    ))
}

/// Codes and interleaves four packets, the first of which is packet `first` of its field. `bytes` is set to what leaves
/// the interleaver meanwhile. Codewords and interleaved bytes are made in place.
pub(crate) fn code_packets(
    outer: &mut OuterCoding,
    first: usize,
    packets: &[Packet; GROUP_PACKETS],
    bytes: &mut [u8; GROUP_BYTES],
)
    requires white { outer.old.white ≡ randomizer_bytes }
    requires place { first + GROUP_PACKETS ≤ FIELD_PACKETS }
    ensures bytes { bytes.new ≡ leaving_all BRANCHES outer.old.branches
        (coded_from first (map (λ p. p.0) packets.now)) }
    ensures outer { outer.new ≡ record outer.old {
      branches = after_all BRANCHES outer.old.branches
          (coded_from first (map (λ p. p.0) packets.now));
    } }
{
    let heads = [
        data_of(&packets[0].0),
        data_of(&packets[1].0),
        data_of(&packets[2].0),
        data_of(&packets[3].0),
    ];
    outer.encode_four(first, &heads, &mut bytes[..]);
    outer.interleave(&mut bytes[..]);
}

/// Codes and interleaves packets, the first of which is packet `first` of its field. `bytes` is set to what leaves the
/// interleaver meanwhile. All codewords go through the interleaver together.
pub(crate) fn interleave_packets(
    outer: &mut OuterCoding,
    first: usize,
    packets: &[[u8; PACKET]],
    bytes: &mut [u8],
)
    requires white { outer.old.white ≡ randomizer_bytes }
    requires whole { length packets.now % GROUP_PACKETS ≡ 0 }
    requires in_field { first + length packets.now ≤ FIELD_PACKETS }
    requires room { length bytes.old ≡ CODEWORD * length packets.now }
    ensures bytes { bytes.new ≡ leaving_all BRANCHES outer.old.branches (coded_from first packets.now) }
    ensures outer { outer.new ≡ record outer.old {
      branches = after_all BRANCHES outer.old.branches (coded_from first packets.now);
    } }
{
    encode_packets(outer, first, packets, bytes);
    outer.interleave(bytes);
}

/// Sets `words` to the codewords of packets, one after another. The first packet is packet `first` of its field.
fn encode_packets(outer: &OuterCoding, first: usize, packets: &[[u8; PACKET]], words: &mut [u8])
    requires white { outer.now.white ≡ randomizer_bytes }
    requires whole { length packets.now % GROUP_PACKETS ≡ 0 }
    requires in_field { first + length packets.now ≤ FIELD_PACKETS }
    requires room { length words.old ≡ CODEWORD * length packets.now }
    ensures { words.new ≡ coded_from first packets.now }
{
    let (groups, _) = packets.as_chunks::<GROUP_PACKETS>();
    for i in 0..groups.len() {
        let at = GROUP_BYTES * i;
        let place = first + GROUP_PACKETS * i;
        encode_group(outer, place, &groups[i], &mut words[at..at + GROUP_BYTES]);
    }
}

/// The same for four packets.
#[inline(always)]
fn encode_group(
    outer: &OuterCoding,
    first: usize,
    packets: &[[u8; PACKET]; GROUP_PACKETS],
    words: &mut [u8],
)
    requires white { outer.now.white ≡ randomizer_bytes }
    requires in_field { first + GROUP_PACKETS ≤ FIELD_PACKETS }
    requires room { length words.old ≡ GROUP_BYTES }
    ensures { words.new ≡ coded_from first packets.now }
{
    let heads = [
        data_of(&packets[0]),
        data_of(&packets[1]),
        data_of(&packets[2]),
        data_of(&packets[3]),
    ];
    outer.encode_four(first, &heads, words);
}

/// The data of a packet: its bytes after the sync byte.
#[inline(always)]
fn data_of(packet: &[u8; PACKET]) -> &[u8]
    ensures behind { result.now ≡ drop 1 packet.now }
    ensures whole { length packet.now ≡ PACKET }
{
    &packet[1..]
}
