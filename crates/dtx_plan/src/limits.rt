// The limits of a plan, which are the profile's own.
use dtx_sizes::{MOST_PACKETS, MOST_SYMBOLS, PACKET, SECOND_TICKS};

/// How many bytes a plan or a file of changes has at most.
pub(crate) const MOST_BYTES: usize = 16_777_216;

/// How many events a plan has at most.
pub(crate) const MOST_EVENTS: usize = 10_000;

/// How many entries of damage a plan or a file of changes has at most.
pub(crate) const MOST_DAMAGES: usize = 100_000;

/// The last tick of 100 ns of a second. The start and the maximum delay go up to it.
pub(crate) const LAST_TICK: u64 = SECOND_TICKS as u64 - 1;

/// The last byte of a packet.
pub(crate) const LAST_BYTE: u64 = PACKET as u64 - 1;

/// The last packet of the longest feed.
pub(crate) const LAST_PACKET: u64 = MOST_PACKETS - 1;

/// The last symbol of the longest file.
pub(crate) const LAST_SYMBOL: u64 = MOST_SYMBOLS - 1;

/// The greatest seed that a plan may name.
pub(crate) const LAST_SEED: u64 = 9_223_372_036_854_775_807;
