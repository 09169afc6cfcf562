// What the clock answers.

/// The delay is greater than the maximum delay plus the offset.
#[derive(Clone, Copy, PartialEq, Eq)]
pub struct Late;

/// A moment within its second: whole ticks of 100 ns, and the grains behind them, of which a tick has 1539 (the
/// profile's own).
#[derive(Clone, Copy, PartialEq, Eq)]
pub struct Moment {
    pub tick: u32,
    pub grain: u16,
}
