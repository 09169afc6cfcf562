// Packets as events of a plan change them.
ghost use Rattle.std.specs.Prelude.{◌≡◌, ◌<◌};
ghost use Rattle.dtx_net.specs.Steps.{flipped_packet, lied_packet};

use dtx_exciter::Corrector;
use dtx_ops::{read, write};
use dtx_packets::Packet;
use dtx_trellis::States;

/// The packet with byte `at`, below 188, changed by exclusive or with `with` (the profile's own).
pub fn flipped(packet: &Packet, at: u8, with: u8) -> Packet
    requires { at < 188 }
    ensures { result.0 ≡ flipped_packet packet.now.0 at with }
{
    let mut changed = *packet;
    changed.0[at as usize] ^= with;
    changed
}

/// The packet with other states, as `Net::lied` describes. `corrector` has the tables of the code.
#[tactic(auto, unfolding(crate::specs::Steps::lied_packet))]
pub(crate) fn lied_by(corrector: &Corrector, packet: &Packet, states: &States) -> Packet
    ensures { result.0 ≡ lied_packet packet.now.0 states.now }
{
    let mut changed = *packet;
    if let Ok(mut ops) = read(corrector, packet) {
        ops.states = *states;
        write(corrector.encoder(), &ops, packet.counter(), &mut changed);
    }
    changed
}
