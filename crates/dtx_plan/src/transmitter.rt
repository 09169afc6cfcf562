// A transmitter of a plan.

/// A transmitter has an address, an offset of its emission from the network's maximum delay, and a delay of the feed on
/// its way to it. Offset and delay are in ticks of 100 ns. The offset is that of ATSC A/110; how a plan spells it is
/// the profile's own.
#[derive(Clone, Copy)]
pub struct Transmitter {
    pub address: u16,
    pub offset: i16,
    pub delay: u32,
}
