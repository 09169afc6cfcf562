// The fields of an operations packet (the profile's own).
use crate::paging::Paging;
use arrayvec::ArrayVec;
use dtx_sizes::MOST_ENTRIES;
use dtx_trellis::States;

/// A transmitter's address, and its offset in ticks of 100 ns.
#[derive(Clone, Copy, Default, PartialEq, Eq)]
pub struct Entry {
    pub address: u16,
    pub offset: i16,
}

/// The fields of an operations packet.
#[derive(PartialEq, Eq, Drop)]
pub struct Ops {
    /// The states of the twelve trellis coders before the packet's group of four.
    pub states: States,
    /// The stamp of the packet's frame, in ticks, below 10,000,000.
    pub stamp: u32,
    /// The maximum delay of the network, in ticks, below 10,000,000.
    pub max_delay: u32,
    /// The number of the frame.
    pub frame: u32,
    /// The packet's place in its frame, below 624.
    pub index: u16,
    /// Which page of the transmitters the packet carries.
    pub paging: Paging,
    /// The transmitters of the page, whose addresses differ from each other.
    pub offsets: ArrayVec<Entry, MOST_ENTRIES>,
}
