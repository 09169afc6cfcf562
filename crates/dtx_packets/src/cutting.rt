// Cutting bytes into packets.
ghost use Rattle.std.specs.Prelude.{◌≡◌, ◌≤◌, length, map, take, drop};
ghost use Rattle.dtx_packets.specs.Packets.{whole_packets, packets_of};

use crate::packet::Packet;
use dtx_sizes::PACKET;

/// Copies the whole packets of the bytes to the front of `into`. The rest of `into` stays.
pub(crate) fn cut(bytes: &[u8], into: &mut [Packet])
    requires { whole_packets bytes.now ≤ length into.old }
    ensures packets { map (λ p. p.0) (take (whole_packets bytes.now) into.new) ≡ packets_of bytes.now }
    ensures rest { drop (whole_packets bytes.now) into.new ≡ drop (whole_packets bytes.now) into.old }
{
    let (chunks, _) = bytes.as_chunks::<PACKET>();
    for (k, chunk) in chunks.iter().enumerate() {
        into[k] = Packet(*chunk);
    }
}
