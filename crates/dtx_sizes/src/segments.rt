// The symbols of a segment, and of a group of four data segments (ATSC A/53 Part 2, data segment and trellis coding).

/// How many symbols a segment has.
pub const SEGMENT: usize = 832;

/// How many symbols its sync has.
pub const SEGMENT_SYNC: usize = 4;

/// How many data symbols a data segment has.
pub const SEGMENT_LEVELS: usize = 828;

/// How many precode symbols a field sync has. They repeat the last symbols of the segment before it.
pub const PRECODE: usize = 12;

/// How many trellis coders take turns.
pub const CODERS: usize = 12;

/// How many rounds stand in one segment. In a round each coder gives one symbol.
pub const SEGMENT_ROUNDS: usize = 69;

/// How many rounds a group has.
pub const ROUNDS: usize = 276;

/// How many bytes a group takes.
pub const GROUP_BYTES: usize = 828;

/// How many of a group's bytes each coder takes, one in four rounds.
pub const CODER_BYTES: usize = 69;

/// How many data symbols a group has.
pub const GROUP_LEVELS: usize = 3312;

/// How many symbols the data segments of a group have: their data symbols, and the segment syncs in front of these.
pub const GROUP_SYMBOLS: usize = 3328;
