// The limits of streams and networks (the profile's own).

/// How many frames a stream has at most.
pub const MOST_FRAMES: u32 = 1_000_000;

/// How many packets a stream has at most: those of 1,000,000 frames.
pub const MOST_PACKETS: u64 = 624_000_000;

/// How many segments are received at most: those of 1,000,000 frames, of 626 segments each.
pub const MOST_SEGMENTS: u64 = 626_000_000;

/// How many symbols are received, or bytes damaged, at most: those of 626,000,000 segments, of 832 symbols each.
pub const MOST_SYMBOLS: u64 = 520_832_000_000;

/// How many entries an operations packet that lists all transmitters has at most.
pub const MOST_ENTRIES: usize = 35;

/// How many entries a page of transmitters has at most.
pub const PAGE_ENTRIES: usize = 34;

/// How many pages a network's transmitters take at most.
pub const MOST_PAGES: u8 = 30;

/// How many transmitters a network has at most: 30 pages of 34 entries each.
pub const MOST_TRANSMITTERS: usize = 1020;

/// How many ticks of 100 ns a second has. A stamp and a maximum delay are below it.
pub const SECOND_TICKS: u32 = 10_000_000;
