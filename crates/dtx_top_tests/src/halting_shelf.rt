//! A shelf of which a read error is foreseen.

ghost use Rattle.std.specs.Prelude.{◌≡◌, ◌+◌, ◌<◌, ◌≤◌, Some, [], bytes_eq, codes, false, length, true};
ghost use Rattle.std.specs.Option.{option_map};
ghost use Rattle.std.specs.FinMap as map;
ghost use Rattle.dtx_outside.specs.Refusals.{no_counts};
ghost use Rattle.dtx_top_tests.specs.Halting.{halting_at};

use dtx_outside::{MemoryShelf, ReadNo, Refusals, Shelf, WriteNo};
use std::marker::Model;

/// The name of the file that can't be read to its end.
const HALTING: &str = "in.ts";

/// Files in memory. Of the file `in.ts` the first `N` bytes can be read, whoever reads them and however often. Each
/// read that asks for a byte behind them fails.
#[derive(Drop)]
pub struct HaltingShelf<const N: u64> {
    memory: MemoryShelf,
    refusals: Refusals,
}

impl<const N: u64> Model for HaltingShelf<N> {
    ghost use Rattle.std.specs.Prelude.{◌≡◌, []};
    ghost use Rattle.dtx_outside.specs.MemoryShelf.{Kept, kept_code};

    ghost Value = { Kept };

    ghost coded = { kept_code };

    ghost view = { λ s. record s.memory { counts = s.refusals } };

    // No other read is planned to fail.
    ghost invariant = { λ s. s.memory.reads.failing ≡ [] };
}

impl<const N: u64> HaltingShelf<N> {
    /// A shelf with these files, which has refused nothing.
    pub fn new(memory: MemoryShelf) -> HaltingShelf<N>
        requires { memory.reads.failing ≡ [] }
        ensures files { result.files ≡ memory.files }
        ensures counts { result.counts ≡ no_counts }
    {
        HaltingShelf {
            memory,
            refusals: Refusals::new(),
        }
    }

    /// The bytes of a file, or `None` where the name isn't there.
    pub fn get(&self, name: &str) -> Option<&[u8]>
        ensures { option_map (λ bytes. bytes.now) result ≡ map.get self.now.files name.now }
    {
        self.memory.get(name)
    }
}

/// Whether a read of so many bytes from offset `place` on asks for a byte of `in.ts` behind the first `readable`.
fn halts(name: &str, readable: u64, place: u64, wanted: usize) -> bool
    ensures halts { result ≡ true → readable < place + wanted }
    ensures reads { result ≡ false → bytes_eq name.now (codes "in.ts") ≡ true → place + wanted ≤ readable }
{
    name == HALTING && (place > readable || readable - place < wanted as u64)
}

impl<const N: u64> Shelf for HaltingShelf<N> {
    ghost files = { λ s. Some s.files };

    ghost counts = { λ s. s.counts };

    ghost foreseen = { halting_at N };

    fn known(&self) {
        self.memory.known();
    }

    fn read(&mut self, name: &str, place: u64, into: &mut [u8]) -> Result<usize, ReadNo> {
        if halts(name, N, place, into.len()) {
            return self.refusals.note_read(Err(ReadNo::Failed));
        }
        let read = self.memory.read(name, place, into);
        self.refusals.note_read(read)
    }

    fn begin(&mut self, name: &str) -> Result<(), WriteNo> {
        let begun = self.memory.begin(name);
        self.refusals.note_write(begun)
    }

    fn append(&mut self, name: &str, bytes: &[u8]) -> Result<(), WriteNo> {
        let appended = self.memory.append(name, bytes);
        self.refusals.note_write(appended)
    }
}
