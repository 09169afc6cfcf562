// What an exciter answers to a packet.
use dtx_clock::Moment;

/// Why nothing is sent, as `Told::Muted` gives it.
#[derive(Clone, Copy, PartialEq, Eq)]
pub enum Why {
    /// The anchor is lost: two marks that were due in a row are missing.
    Cadence,
    /// The transmitter's address has no entry in force, and each page of the network's transmitters was told.
    Unlisted,
    /// The transmitter's delay is greater than the order's maximum delay plus the offset in force.
    Late,
}

/// What an order sets at the group that carries it.
#[derive(Clone, Copy, PartialEq, Eq)]
pub struct Preset {
    /// The number of the frame, as the order says it.
    pub frame: u32,
    /// The place in its frame of the group's first packet, from 0 to 623.
    pub packet: u16,
    /// The moment at which that packet's data segment begins.
    pub moment: Moment,
    /// For how many ticks of 100 ns the exciter holds what it sends.
    pub hold: u32,
}

/// An exciter's answer to one packet.
#[derive(Clone, Copy, PartialEq, Eq)]
pub enum Told {
    /// Nothing is sent.
    Quiet,
    /// The packet completes a group, which is sent. There is a preset if the group itself carries an order.
    Sent { preset: Option<Preset> },
    /// Nothing is sent, for this reason.
    Muted(Why),
}
