// The engine of `acquire` and `refine`: restores the segments of a capture, a piece of its file at a time.
ghost use Rattle.std.specs.Prelude.{◌≡◌, ◌+◌, ◌≤◌, ℤ, List, [], length, vec_len};
ghost use Rattle.dtx_jobs.specs.Restorer.{WereRestored};
ghost use Rattle.dtx_recipes.specs.SymbolFile.{symbols};

use crate::restorer::Restorer;
use crate::symbol_buffer::SymbolBuffer;
use dtx_engine::{Engine, Shape};
use dtx_forms::{Capturing, PIECE_BYTES, Setting, single_bytes};
use dtx_meaning::Outcome;
use dtx_receiver::to_symbols;
use dtx_sizes::MOST_SYMBOLS;
use std::alloc::{AllocError, Global};

/// A restorer, the symbols of the last piece, and the symbols that this piece brought.
#[derive(Drop)]
pub(crate) struct Acquisition<R, const N: usize> {
    restorer: R,
    piece: Vec<i8>,
    symbols: SymbolBuffer<N>,
}

impl<R: Restorer<N>, const N: usize> Engine for Acquisition<R, N> {
    ghost use Rattle.std.specs.Prelude.{vec_len};
    ghost use Rattle.dtx_engine.specs.Made.{only};
    ghost use Rattle.dtx_jobs.specs.Restorer.{WasGiven};
    ghost use Rattle.dtx_recipes.specs.Restoring.{restoring_by};
    ghost use Rattle.dtx_recipes.proofs.RestoringLemmas.{restores_more, restores_none};
    ghost use Rattle.dtx_forms.specs.Shapes as shapes;

    ghost shape = { shapes.single_bytes };

    ghost recipe = { λ s. restoring_by (R.restoring s.restorer) };

    ghost stands = { λ s. WasGiven (R.stands s.restorer) (vec_len s.piece) };

    ghost gives = { λ s _. only s.symbols };

    ghost zeros = { λ _. 0 };

    fn sizes(&self) -> Shape {
        single_bytes()
    }

    fn allows(&self, _index: u64, _unit: &[u8]) -> bool {
        true
    }

    fn feed(&mut self, _first: u64, bytes: &mut [u8]) {
        self.symbols.clear();
        restore_piece(
            &mut self.restorer,
            bytes,
            &mut self.piece,
            &mut self.symbols,
        );
    }

    fn finish(&mut self, _loose: usize) -> Outcome {
        self.symbols.clear();
        self.restorer.finish(&mut self.symbols)
    }

    fn zeros(&self) -> u64 {
        0
    }

    fn made<'a>(&'a self, _bytes: &'a [u8]) -> &'a [u8] {
        self.symbols.bytes()
    }

    fn log(&self) -> &[u8] {
        &[]
    }

    ghost starts = { λ s. restores_none (R.restoring s.restorer) (R.restores s.restorer) };

    ghost grows = { λ s a b whole. restores_more (R.restoring s.restorer) (R.restores s.restorer) a b };
}

impl<R: Restorer<N>, const N: usize> Capturing for Acquisition<R, N> {
    ghost use Rattle.dtx_recipes.specs.Restoring.{restoring_by};

    ghost command = { R.command };

    ghost makes = { λ scale rounds. restoring_by (R.makes scale rounds) };

    fn new(alloc: Global, setting: Setting) -> Result<Acquisition<R, N>, AllocError> {
        Ok(Acquisition {
            piece: vec![in alloc; 0i8; PIECE_BYTES]?,
            symbols: SymbolBuffer::new(alloc)?,
            restorer: R::new(alloc, setting)?,
        })
    }

    ghost knows = { R.knows };
}

/// Gives the symbols of `bytes` to the restorer, and appends the segments that they bring to `gathered`.
fn restore_piece<R: Restorer<N>, const N: usize>(
    restorer: &mut R,
    bytes: &[u8],
    piece: &mut Vec<i8>,
    gathered: &mut SymbolBuffer<N>,
)
    requires most { (before : List ℤ) × R.stands restorer.old before
        × (length before + length bytes.now ≤ MOST_SYMBOLS) }
    requires few { length bytes.now ≤ PIECE_BYTES }
    requires room { vec_len piece.old ≡ PIECE_BYTES }
    requires empty { gathered.old ≡ [] }
    ensures restored { WereRestored (R.restoring restorer.old) (R.stands restorer.old) (R.stands restorer.new)
        (symbols bytes.now) gathered.new }
    ensures kept { R.restoring restorer.new ≡ R.restoring restorer.old }
    ensures room { vec_len piece.new ≡ PIECE_BYTES }
{
    let piece = &mut piece[..bytes.len()];
    to_symbols(bytes, piece);
    restore_all(restorer, piece, gathered);
}

/// Gives the symbols of `piece` to the restorer, and appends the segments that they bring to `gathered`.
fn restore_all<R: Restorer<N>, const N: usize>(
    restorer: &mut R,
    piece: &[i8],
    gathered: &mut SymbolBuffer<N>,
)
    requires most { (before : List ℤ) × R.stands restorer.old before
        × (length before + length piece.now ≤ MOST_SYMBOLS) }
    requires few { length piece.now ≤ PIECE_BYTES }
    requires empty { gathered.old ≡ [] }
    ensures restored { WereRestored (R.restoring restorer.old) (R.stands restorer.old) (R.stands restorer.new)
        piece.now gathered.new }
    ensures kept { R.restoring restorer.new ≡ R.restoring restorer.old }
{
    restorer.known();
    let mut done = 0;
    while done < piece.len() {
        done += restorer.take(&piece[done..]);
        gathered.push_all(restorer.given());
    }
}
