// Where the program prints its line.
ghost use Rattle.std.specs.Prelude.{◌≡◌, ◌<◌, ◌≤◌, ℕ, List, length, IfOk, Option};
ghost use Rattle.dtx_outside.specs.Sink.{IsPrinted, IsCounted, SinkCounts};
ghost use Rattle.dtx_outside.specs.declared.sink.SinkNo.TheVariants.{Memory};

use std::alloc::AllocError;

/// Why bytes were not printed.
#[derive(Clone, Copy, PartialEq, Eq)]
pub enum SinkNo {
    /// Writing failed.
    Failed,
    /// Out of memory.
    Memory,
}

impl From<AllocError> for SinkNo {
    ghost from_gives = { λ _ no. no ≡ Memory };

    fn from(_: AllocError) -> SinkNo {
        SinkNo::Memory
    }
}

/// Where bytes are printed: in memory, or the host's standard output.
pub trait Sink {
    /// The bytes written so far, or `None` for a sink that doesn't tell them, as the host's.
    ghost written: { Self → Option (List ℕ) };

    /// How often printing failed, and how often it lacked memory. No count falls, and each stays at the greatest `u64`.
    ghost counts: { Self → SinkCounts };

    /// Prints a prefix of the bytes, and returns its length, which is 0 only for no bytes. After `Failed` a prefix may
    /// have been printed. After `Memory` nothing was printed.
    fn write(&mut self, bytes: &[u8]) -> Result<usize, SinkNo>
        ensures bound { IfOk result (λ n. n ≤ length bytes.now) }
        ensures some { IfOk result (λ n. 0 < length bytes.now → 0 < n) }
        ensures empty { length bytes.now ≡ 0 → result ≡ Ok 0 }
        ensures bytes { IsPrinted bytes.now (written self.old) result (written self.new) }
        ensures gone { IsCounted (counts self.old) result (counts self.new) };
}
