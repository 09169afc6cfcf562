// The outer coding (ATSC A/53 Part 2, Reed-Solomon encoder and convolutional interleaver).

/// How many bytes a codeword has: the 187 data bytes of a packet, and 20 parity bytes.
pub const CODEWORD: usize = 207;

/// How many branches the interleaver has.
pub const BRANCHES: usize = 52;

/// The number of bytes by which each branch is longer than the one before it.
pub const BRANCH_STEP: usize = 4;

/// The number of packets after an align that flush the interleaver: behind them, each byte that leaves has come since
/// the align. With the last of them, one byte still leaves that a branch held before.
pub const FLUSHING_PACKETS: usize = 52;
