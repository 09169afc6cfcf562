//! The numbers of the outer coding (EN 300 429).

use dtx_sizes::PACKET;

/// A packet with its parity bytes, in bytes (EN 300 429, 7.2).
pub const BLOCK: usize = 204;

/// How many branches the interleaver has (EN 300 429, 7.3).
pub const BRANCHES: usize = 12;

/// The number of bytes by which each branch is longer than the one before it.
pub const BRANCH_STEP: usize = 17;

/// How many packets the randomizer's period has (EN 300 429, 7.1).
pub const PERIOD_PACKETS: usize = 8;

/// The randomizer's period, in bytes.
pub const PERIOD: usize = PACKET * PERIOD_PACKETS;

/// The number of blocks by which the interleaver delays. So the first eleven blocks of a stream give no packet.
pub const WAITING: usize = 11;

/// How many packets are coded together.
pub const FOUR: usize = 4;

/// The blocks of four packets, in bytes.
pub const FOUR_BLOCKS: usize = BLOCK * FOUR;
