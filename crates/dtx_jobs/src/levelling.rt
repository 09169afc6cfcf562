// The engine of `level`: levels a capture, one piece of its file at a time.
ghost use Rattle.std.specs.Prelude.{◌≡◌, ◌++◌, ◌+◌, ◌*◌, ◌<◌, ◌≤◌, ℤ, List, [], IfOk, length, map, vec_len};
ghost use Rattle.dtx_files.specs.Symbols.{byte_of_symbol};
ghost use Rattle.dtx_level.specs.Leveller.{StandsFor, all_given, as_list};
ghost use Rattle.dtx_level.specs.Measures.{measures_text};
ghost use Rattle.dtx_meaning.specs.Status.{IsOfBytes, blame_of};
ghost use Rattle.dtx_outside.specs.Counts.{Nothing};
ghost use Rattle.dtx_recipes.specs.Level.{levelled_answer};
ghost use Rattle.dtx_jobs.specs.Levelling.{IsEmpty, WereLevelled, bytes_brought};
ghost use Rattle.dtx_recipes.specs.SymbolFile.{symbols};

use crate::symbol_buffer::SymbolBuffer;
use arrayvec::ArrayString;
use dtx_engine::{Buffer, Engine, Shape};
use dtx_forms::{PIECE_BYTES, Transforming, single_bytes};
use dtx_level::{Leveller, MEASURE_LINE, write_measure};
use dtx_meaning::{Outcome, Status, done, ended};
use dtx_receiver::to_symbols;
use dtx_sizes::{FIELD_SEGMENTS, MOST_SYMBOLS, SEGMENT};
use std::alloc::{AllocError, Global};

/// The most symbols that a piece brings behind its zeros: its own, and those of one field and one segment that were
/// held before it.
const LEVELLED_BYTES: usize = PIECE_BYTES + SEGMENT * (FIELD_SEGMENTS as usize + 1);

/// Room for the lines of a piece's syncs, in bytes. Each sync has a segment of its own.
const LINES_BYTES: usize = MEASURE_LINE * (LEVELLED_BYTES / SEGMENT + 1);

/// What a piece brought: zeros, the symbols behind them, and the lines of the syncs that were measured.
#[derive(Drop)]
pub(crate) struct Brought {
    zeros: u64,
    symbols: SymbolBuffer<LEVELLED_BYTES>,
    line: ArrayString<MEASURE_LINE>,
    lines: Buffer<LINES_BYTES>,
}

impl Brought {
    /// Empty. The only error is out of memory.
    fn new(alloc: Global) -> Result<Brought, AllocError> {
        Ok(Brought {
            zeros: 0,
            symbols: SymbolBuffer::new(alloc)?,
            line: ArrayString::new(),
            lines: Buffer::new(alloc)?,
        })
    }

    /// Forgets what the last piece brought.
    fn clear(&mut self)
        ensures { IsEmpty self.new }
    {
        self.zeros = 0;
        self.symbols.clear();
        self.lines.clear();
    }

    /// Appends what the leveller's last call brought. A call may bring zeros only before any symbol of the piece.
    fn add(&mut self, leveller: &Leveller)
        requires first { 0 < leveller.now.zeros → (self.old.zeros ≡ 0) × (self.old.symbols ≡ []) }
        requires symbols { length self.old.symbols + length leveller.now.given ≤ LEVELLED_BYTES }
        requires lines { length self.old.lines + MEASURE_LINE * length (as_list leveller.now.measured) ≤ LINES_BYTES }
        ensures symbols { bytes_brought self.new
            ≡ bytes_brought self.old ++ map byte_of_symbol (all_given leveller.now) }
        ensures lines { self.new.lines ≡ self.old.lines ++ measures_text (as_list leveller.now.measured) }
        ensures long { length self.new.symbols ≡ length self.old.symbols + length leveller.now.given }
        ensures short { length self.new.lines
            ≤ length self.old.lines + MEASURE_LINE * length (as_list leveller.now.measured) }
    {
        self.zeros += leveller.zeros();
        self.symbols.push(leveller.given());
        if let Some(measure) = leveller.measured() {
            write_measure(&measure, &mut self.line);
            self.lines.push(self.line.as_str().as_bytes());
        }
    }
}

/// A leveller, the symbols of the last piece, and what it brought.
#[derive(Drop)]
pub(crate) struct Levelling {
    leveller: Leveller,
    piece: Vec<i8>,
    brought: Brought,
}

impl Engine for Levelling {
    ghost use Rattle.dtx_forms.specs.Shapes as shapes;
    ghost use Rattle.dtx_recipes.specs.Level.{levelling};
    ghost use Rattle.dtx_recipes.proofs.LevelLemmas.{levels_more, levels_none};
    ghost use Rattle.dtx_jobs.specs.Levelling.{WasLevelled, bytes_brought};

    ghost shape = { shapes.single_bytes };

    ghost recipe = { λ _. levelling };

    ghost stands = { WasLevelled };

    ghost gives = { λ s _. record { first = bytes_brought s.brought; second = s.brought.lines } };

    ghost zeros = { λ s. s.brought.zeros };

    fn sizes(&self) -> Shape {
        single_bytes()
    }

    fn allows(&self, _index: u64, _unit: &[u8]) -> bool {
        true
    }

    fn feed(&mut self, _first: u64, bytes: &mut [u8]) {
        self.brought.clear();
        level_piece(
            &mut self.leveller,
            bytes,
            &mut self.piece,
            &mut self.brought,
        );
    }

    fn finish(&mut self, _loose: usize) -> Outcome {
        self.brought.clear();
        self.leveller.finish();
        self.brought.add(&self.leveller);
        answer(&self.leveller)
    }

    fn zeros(&self) -> u64 {
        self.brought.zeros
    }

    fn made<'a>(&'a self, _bytes: &'a [u8]) -> &'a [u8] {
        self.brought.symbols.bytes()
    }

    fn log(&self) -> &[u8] {
        self.brought.lines.bytes()
    }

    ghost starts = { λ _. levels_none };

    ghost grows = { λ _ a b whole. levels_more a b };
}

impl Transforming for Levelling {
    ghost use Rattle.dtx_words.specs.declared.rows.Command.TheVariants as command;
    ghost use Rattle.dtx_recipes.specs.Level.{levelling};
    ghost use Rattle.dtx_recipes.proofs.LevelLemmas.{level_knows};

    ghost command = { command.Level };

    ghost makes = { levelling };

    fn new(alloc: Global) -> Result<Levelling, AllocError> {
        Ok(Levelling {
            leveller: Leveller::new(alloc)?,
            piece: vec![in alloc; 0i8; PIECE_BYTES]?,
            brought: Brought::new(alloc)?,
        })
    }

    ghost knows = { level_knows };
}

/// Gives the symbols of `bytes` to the leveller, and appends what they bring to `brought`.
fn level_piece(leveller: &mut Leveller, bytes: &[u8], piece: &mut Vec<i8>, brought: &mut Brought)
    requires stands { (before : List ℤ) × StandsFor leveller.old before }
    requires most { leveller.old.symbols + length bytes.now ≤ MOST_SYMBOLS }
    requires few { length bytes.now ≤ PIECE_BYTES }
    requires room { vec_len piece.old ≡ PIECE_BYTES }
    requires empty { IsEmpty brought.old }
    ensures levelled { WereLevelled leveller.old leveller.new (symbols bytes.now) brought.new }
    ensures room { vec_len piece.new ≡ PIECE_BYTES }
{
    let piece = &mut piece[..bytes.len()];
    to_symbols(bytes, piece);
    level_all(leveller, piece, brought);
}

/// Gives the symbols of `piece` to the leveller, and appends what they bring to `brought`.
fn level_all(leveller: &mut Leveller, piece: &[i8], brought: &mut Brought)
    requires stands { (before : List ℤ) × StandsFor leveller.old before }
    requires most { leveller.old.symbols + length piece.now ≤ MOST_SYMBOLS }
    requires few { length piece.now ≤ PIECE_BYTES }
    requires empty { IsEmpty brought.old }
    ensures { WereLevelled leveller.old leveller.new piece.now brought.new }
{
    let mut done = 0;
    while done < piece.len() {
        done += leveller.take(&piece[done..]);
        brought.add(leveller);
    }
}

/// The answer of `level`: `NoSync` where there is no sync, else `Done` with three numbers.
fn answer(leveller: &Leveller) -> Outcome
    ensures outcome { result ≡ levelled_answer leveller.now.symbols leveller.now.syncs leveller.now.slips }
    ensures verdict { blame_of result.status ≡ Nothing }
    ensures bytes { IsOfBytes result.status }
{
    let syncs = leveller.syncs();
    if syncs == 0 {
        return ended(Status::NoSync);
    }
    done(&[leveller.symbols(), syncs, leveller.slips()])
}
