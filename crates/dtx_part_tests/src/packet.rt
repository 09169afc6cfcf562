// The fields of a packet's header.

use dtx_packets::Packet;
use dtx_sizes::PACKET;

/// A header, its sync byte, packet identifier, error indicator and counter.
const HEADERS: [([u8; 4], u8, u16, bool, u8); 2] = [
    ([0x47, 0x40, 0x31, 0x17], 0x47, 0x0031, false, 7),
    ([0xB8, 0x9F, 0xFA, 0xDE], 0xB8, 0x1FFA, true, 14),
];

fn with_header(header: &[u8; 4]) -> Packet {
    let mut packet = Packet([0; PACKET]);
    for i in 0..4 {
        packet.0[i] = header[i];
    }
    packet
}

#[test]
fn the_fields_of_a_header_are_read(rt: HostRuntime) {
    for (header, sync, pid, error, counter) in &HEADERS {
        let packet = with_header(header);
        assert!(rt;
            packet.sync() == *sync
                && packet.pid() == *pid
                && packet.error() == *error
                && packet.counter() == *counter
        );
    }
}
