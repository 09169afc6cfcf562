// A plan as a whole.

use crate::damage::Damages;
use crate::event::Events;
use crate::transmitters::Transmitters;
use dtx_outside::Word;

/// A plan of a network: the tick of 100 ns at which its feed starts, its maximum delay in ticks, and its transmitters.
/// A plan may also say what is done with them.
#[derive(Drop)]
pub struct Plan {
    pub start: u32,
    pub max_delay: u32,
    pub transmitters: Transmitters,
    pub net: Option<NetPlan>,
}

/// What is done with the transmitters: the name of the file of their stream, the schedule, and what is received, if
/// anything is.
#[derive(Drop)]
pub struct NetPlan {
    pub stream: Word,
    pub events: Events,
    pub receive: Option<ReceivePlan>,
}

/// What is received: the address of the transmitter, and the damage on the way.
#[derive(Drop)]
pub struct ReceivePlan {
    pub from: u16,
    pub damage: Damages,
}
