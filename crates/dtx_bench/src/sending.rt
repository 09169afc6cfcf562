//! How long a group takes as a whole, from four packets to the symbols of their segments.

use crate::times::{Line, Work, print_least};
use dtx_coder::{Air, Coder};
use dtx_packets::Packet;
use dtx_sizes::{FIELD_PACKETS, GROUP_PACKETS, PACKET, PRECODE, SEGMENT};
use std::alloc::Global;
use std::io;
use std::rt::Clock;

/// How many groups a round codes: those of a field.
const GROUPS: u16 = FIELD_PACKETS / 4;

static GROUP: Line = Line {
    name: "group",
    piece: "group",
    pieces: GROUPS as u32,
};

#[derive(Drop)]
struct Sending {
    coder: Coder,
    air: Air,
    packets: [Packet; GROUP_PACKETS],
}

impl Work for Sending {
    fn round(&mut self) -> u8 {
        for group in 0..GROUPS {
            let first = 4 * group;
            let sync = first == 0;
            self.coder
                .group(first, false, &self.packets, None, sync, &mut self.air);
            for i in 0..PRECODE {
                self.packets[0].0[1 + i] ^= self.air.symbols[GROUP_PACKETS * SEGMENT - PRECODE
                    + i].cast_unsigned();
            }
        }
        self.air.symbols[SEGMENT].cast_unsigned()
    }
}

/// Four packets, whose bytes go with their places.
fn packets() -> [Packet; GROUP_PACKETS] {
    let mut packets = [Packet([0x47; PACKET]); GROUP_PACKETS];
    for p in 0..GROUP_PACKETS {
        for i in 1..PACKET {
            packets[p].0[i] = ((i + 50 * p) % 251) as u8;
        }
    }
    packets
}

pub fn print_group_times(rt: &(impl Clock + Print), alloc: Global) -> io::Result<()> {
    let mut work = Sending {
        packets: packets(),
        air: Air::new(),
        coder: Coder::new(alloc)?,
    };
    print_least(rt, &GROUP, &mut work)
}
