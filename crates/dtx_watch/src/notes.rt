// Notes on the packets of a feed.
use dtx_ops::OpsNo;

/// How many notes a call gives at most: one on each packet of a group, and one that the first of them is an anchor.
pub const MOST_NOTES: usize = 5;

/// The states of an operations packet, compared with those that the coders have before its group.
#[derive(Clone, Copy)]
pub enum StatesNote {
    /// They don't count: the group begins less than 52 packets behind the anchor, or isn't whole.
    Early,
    /// They are the first: no earlier group under this anchor orders states.
    First,
    /// They are those that the coders have, from the states of the latest earlier order on.
    Right,
    /// They differ from those.
    Slip,
}

/// The stamp of an operations packet, compared with that of the latest one before it under this anchor.
#[derive(Clone, Copy)]
pub enum ClockNote {
    /// It is the first.
    First,
    /// It is later by the length of the frames between the two, and the maximum delay is the same.
    Right,
    /// It is not, or the maximum delay differs.
    Jump,
}

/// An operations packet that reads and stands at its place.
#[derive(Clone, Copy)]
pub struct OpsNote {
    /// The number of the frame, as the packet says it.
    pub frame: u32,
    /// The packet's place in its frame, from 0 to 623.
    pub index: u16,
    /// The stamp of its frame, in ticks of 100 ns.
    pub stamp: u32,
    /// The maximum delay of the network, in ticks.
    pub max_delay: u32,
    /// How many transmitters it lists.
    pub listed: u8,
    /// What its states are.
    pub states: StatesNote,
    /// What its stamp is.
    pub clock: ClockNote,
}

/// What a note says of a packet.
#[derive(Clone, Copy, Default)]
pub enum NoteKind {
    /// It is an anchor, and there was none before it.
    #[default]
    Lock,
    /// There was an anchor before it, and there is none with it.
    Lost,
    /// It has the packet identifier of operations packets, and doesn't read.
    Unread(OpsNo),
    /// It reads, and there is no anchor or its index isn't its place.
    Stray { frame: u32, index: u16 },
    /// It reads, and its index is its place.
    Ops(OpsNote),
}

/// A note on one packet.
#[derive(Clone, Copy, Default)]
pub struct Note {
    /// The number of the packet, from 0.
    pub packet: u64,
    /// What the note says of it.
    pub what: NoteKind,
}
