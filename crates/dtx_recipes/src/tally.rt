// The numbers of what was received.
ghost use Rattle.std.specs.Prelude.{◌≡◌, ◌+◌, ◌*◌, ◌<◌, ◌≤◌, ◌^◌, [], length};
ghost use Rattle.dtx_recipes.specs.Tally.{numbers_in, tally_with};

use dtx_receiver::{MOST_RECEIVED, Received};

/// The numbers of what was received.
#[derive(Clone, Copy)]
pub struct Tally {
    /// The segments that were read.
    pub segments: u64,
    /// The runs that began.
    pub runs: u64,
    /// The packets that were given.
    pub packets: u64,
    /// The bytes that were put right.
    pub fixed: u64,
    /// The packets that are flagged.
    pub flagged: u64,
}

impl Tally {
    /// All zeros: nothing was received.
    pub fn new() -> Tally
        ensures { result ≡ record { segments = 0; runs = 0; packets = 0; fixed = 0; flagged = 0 } }
    {
        Tally {
            segments: 0,
            runs: 0,
            packets: 0,
            fixed: 0,
            flagged: 0,
        }
    }

    /// Counts these packets, the bytes put right in them, and those that are flagged.
    pub fn add(&mut self, packets: &[Received])
        requires few { length packets.now ≤ MOST_RECEIVED }
        requires packets { self.old.packets < 2 ^ 60 }
        requires fixed { self.old.fixed < 2 ^ 60 }
        requires flagged { self.old.flagged < 2 ^ 60 }
        ensures counted { self.new ≡ tally_with self.old packets.now }
        ensures most_fixed { self.new.fixed ≤ self.old.fixed + 255 * length packets.now }
        ensures most_flagged { self.new.flagged ≤ self.old.flagged + length packets.now }
    {
        for i in 0..packets.len() {
            self.packets += 1;
            self.fixed += packets[i].fixed as u64;
            if !packets[i].good {
                self.flagged += 1;
            }
        }
    }

    /// The numbers of the command's line, in their order. `loose` bytes are behind the last whole segment.
    pub fn numbers(&self, loose: usize) -> [u64; 6]
        ensures { result ≡ numbers_in self.now loose }
    {
        [
            self.segments,
            self.runs,
            self.packets,
            self.fixed,
            self.flagged,
            loose as u64,
        ]
    }
}
