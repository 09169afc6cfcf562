//! An acquirer, which makes segments from symbols as they come.

ghost use Rattle.std.specs.Prelude.{◌≡◌, ℤ, ◌+◌, ◌-◌, ◌*◌, ◌/◌, ◌<◌, ◌≤◌, ◌++◌, true, false, [], List, IfOk};
ghost use Rattle.std.specs.Prelude.{◌⊎◌, drop, length, take};
ghost use Rattle.dtx_acquire.specs.Acquired.{Field, acquired, acquired_cost, acquired_rest, acquired_runs};
ghost use Rattle.dtx_acquire.specs.Acquired.{acquired_so_far, heard_in, heard_rest, heard_so_far, path_cost};
ghost use Rattle.dtx_acquire.specs.Acquired.{restored_of};
ghost use Rattle.dtx_acquire.specs.Acquirer.{Leaves, StandsFor};
ghost use Rattle.dtx_acquire.specs.Agreement.{agrees};

use crate::giver::Giver;
use crate::step::{FIELD, seek, step_of};
use crate::symbol_window::{MOST_HELD, SymbolWindow};
use dtx_sizes::{FIELD_SEGMENTS, MOST_SYMBOLS, SEGMENT};
use dtx_soft::{MAX_SCALE, MOST_SEGMENT_COST};
use std::alloc::{AllocError, Global};
use std::marker::Model;

/// Finds the fields of a capture that begins anywhere, decides its symbols and restores its syncs (the profile's own;
/// ATSC A/53 Part 2, data segment sync and data field sync). A symbol that was sent as s is expected near `scale * s`.
/// The acquirer is given the symbols in pieces of any length, and gives whole segments, a field at a time. It allocates
/// only in `new`. `StandsFor acquirer symbols` is its invariant: it was given these symbols, and holds less than one
/// field and one segment of them.
#[derive(Drop)]
pub struct Acquirer {
    held: SymbolWindow,
    /// How many symbols in front of `held` are dropped before others are taken. Those of the last field that was given
    /// are among them.
    gone: usize,
    on: bool,
    begins: bool,
    giver: Giver,
    symbols: u64,
}

impl Model for Acquirer {
    ghost use Rattle.std.specs.Prelude.{drop, take};
    ghost use Rattle.dtx_acquire.specs.Acquired.{segments_from};
    ghost use Rattle.dtx_acquire.specs.Acquirer.{Holding, IsFit};

    ghost Value = { Holding };

    ghost view = { λ a. record {
      scale = a.giver.decisions.scale;
      held = drop a.gone a.held;
      on = a.on;
      begins = a.begins;
      given = take a.giver.count a.giver.segments.items;
      heard = segments_from a.held 0 a.giver.count;
      symbols = a.symbols;
      runs = a.giver.runs;
      segments = a.giver.total;
      cost = a.giver.cost;
    } };

    ghost invariant = { λ a. IsFit a.held a.gone a.on a.symbols a.giver.total a.giver.decisions.scale a.giver.count
        a.giver.field_cost };
}

impl Acquirer {
    /// A new acquirer, for symbols at this scale. The only error is out of memory.
    pub fn new(alloc: Global, scale: u8) -> Result<Acquirer, AllocError>
        requires from { 0 < scale }
        requires to { scale ≤ MAX_SCALE }
        ensures stands { IfOk result (λ acquirer. StandsFor acquirer []) }
        ensures given { IfOk result (λ acquirer. acquirer.given ≡ []) }
        ensures held { IfOk result (λ acquirer. acquirer.held ≡ []) }
        ensures scale { IfOk result (λ acquirer. acquirer.scale ≡ scale) }
        ensures symbols { IfOk result (λ acquirer. acquirer.symbols ≡ 0) }
    {
        Ok(Acquirer {
            held: SymbolWindow::new(alloc)?,
            gone: 0,
            on: false,
            begins: true,
            giver: Giver::new(alloc, scale)?,
            symbols: 0,
        })
    }

    /// Takes symbols that follow those given before, and returns how many it took. It takes no more than it has room
    /// for until the next field is whole. `given` has the segments that they bring. The caller calls again with the
    /// rest.
    pub fn take(&mut self, symbols: &[i8]) -> usize
        requires most { self.old.symbols + length symbols.now ≤ MOST_SYMBOLS }
        ensures within { result ≤ length symbols.now }
        ensures some { (before : List ℤ) → StandsFor self.old before → 0 < length symbols.now → 0 < result }
        ensures stands { (before : List ℤ) → StandsFor self.old before
            → StandsFor self.new (before ++ take result symbols.now) }
        ensures given { (before : List ℤ) → StandsFor self.old before
            → acquired_so_far self.old.scale (before ++ take result symbols.now)
            ≡ acquired_so_far self.old.scale before ++ self.new.given }
        ensures heard { (before : List ℤ) → StandsFor self.old before
            → heard_so_far (before ++ take result symbols.now) ≡ heard_so_far before ++ self.new.heard }
        ensures whole { (self.new.given ≡ []) ⊎ (length self.new.given ≡ FIELD_SEGMENTS) }
        ensures same { length self.new.heard ≡ length self.new.given }
        ensures total { self.new.segments ≡ self.old.segments + length self.new.given }
        ensures room { SEGMENT * length self.new.given + length self.new.held ≤ length self.old.held + result }
        ensures scale { self.new.scale ≡ self.old.scale }
        ensures symbols { self.new.symbols ≡ self.old.symbols + result }
    {
        self.giver.field_cost = 0;
        self.giver.count = 0;
        forget(&mut self.held, self.gone);
        self.gone = 0;
        let count = self.held.take(symbols);
        self.symbols += count as u64;
        if self.held.len() == MOST_HELD {
            self.turn();
        }
        count
    }

    /// Ends the symbols. `given` then has the last segments, and the numbers below are those of all symbols.
    pub fn finish(&mut self)
        ensures given { (symbols : List ℤ) → StandsFor self.old symbols
            → self.new.given ≡ acquired_rest self.old.scale symbols }
        ensures runs { (symbols : List ℤ) → StandsFor self.old symbols → self.new.runs ≡ acquired_runs symbols }
        ensures segments { (symbols : List ℤ) → StandsFor self.old symbols
            → self.new.segments ≡ length (acquired self.old.scale symbols) }
        ensures cost { (symbols : List ℤ) → StandsFor self.old symbols
            → self.new.cost ≡ acquired_cost self.old.scale symbols }
        ensures heard { (symbols : List ℤ) → StandsFor self.old symbols → self.new.heard ≡ heard_rest symbols }
        ensures few { length self.new.given ≤ FIELD_SEGMENTS }
        ensures same { length self.new.heard ≡ length self.new.given }
        ensures total { self.new.segments ≡ self.old.segments + length self.new.given }
        ensures room { SEGMENT * length self.new.given ≤ length self.old.held }
        ensures held { self.new.held ≡ [] }
        ensures scale { self.new.scale ≡ self.old.scale }
        ensures symbols { self.new.symbols ≡ self.old.symbols }
    {
        forget(&mut self.held, self.gone);
        let on = seek(self.on, &mut self.held);
        let left = self.held.len();
        let count = whole_segments(on, left);
        self.giver.give(self.held.all(), count, self.begins);
        self.gone = left;
        self.on = false;
    }

    /// The segments that the last call of `take` or `finish` has brought.
    pub fn given(&self) -> &[[i8; SEGMENT]]
        ensures { result.now ≡ self.now.given }
    {
        &self.giver.segments[..self.giver.count]
    }

    /// The same segments as they were received.
    pub fn heard(&self) -> &[[i8; SEGMENT]]
        ensures { result.now ≡ self.now.heard }
    {
        let (segments, _) = self.held.all().as_chunks::<SEGMENT>();
        &segments[..self.giver.count]
    }

    /// What the least paths of these segments cost.
    pub fn field_cost(&self) -> u64
        ensures cost { result ≡ path_cost self.now.scale self.now.heard }
        ensures most { result ≤ MOST_SEGMENT_COST * length self.now.heard }
    {
        self.giver.field_cost
    }

    /// How many symbols were taken.
    pub fn symbols(&self) -> u64
        ensures { result ≡ self.now.symbols }
    {
        self.symbols
    }

    /// How many runs have given segments.
    pub fn runs(&self) -> u64
        ensures { result ≡ self.now.runs }
    {
        self.giver.runs
    }

    /// How many segments were given.
    pub fn segments(&self) -> u64
        ensures { result ≡ self.now.segments }
    {
        self.giver.total
    }

    /// The sum of the costs of the least paths of all that was given.
    pub fn cost(&self) -> u64
        ensures { result ≡ self.now.cost }
    {
        self.giver.cost
    }

    /// How many symbols are in no segment that was given.
    pub fn loose(&self) -> u64
        ensures { result ≡ self.now.symbols - SEGMENT * self.now.segments }
    {
        self.symbols - SEGMENT as u64 * self.giver.total
    }

    /// Looks for a sync if none stands in front. Gives the field after it if the next segment is held too.
    fn turn(&mut self)
        requires none { self.old.heard ≡ [] }
        requires full { length self.old.held ≡ MOST_HELD }
        ensures few { length self.new.held < MOST_HELD }
        ensures room { SEGMENT * length self.new.given + length self.new.held ≤ length self.old.held }
        ensures leaves { (symbols : List ℤ) (done : List Field) → Leaves self.old symbols done
            → (fields : List Field) × Leaves self.new symbols (done ++ fields)
            × (self.new.given ≡ restored_of self.old.scale fields) × (self.new.heard ≡ heard_in fields) }
        ensures whole { (self.new.given ≡ []) ⊎ (length self.new.given ≡ FIELD_SEGMENTS) }
        ensures same { length self.new.heard ≡ length self.new.given }
        ensures total { self.new.segments ≡ self.old.segments + length self.new.given }
        ensures scale { self.new.scale ≡ self.old.scale }
        ensures symbols { self.new.symbols ≡ self.old.symbols }
    {
        self.on = seek(self.on, &mut self.held);
        if self.held.len() == MOST_HELD {
            self.settle();
        }
    }

    /// Gives the field in front of the symbols that are held, once the segment after it is held too.
    fn settle(&mut self)
        requires full { length self.old.held ≡ MOST_HELD }
        requires front { agrees self.old.held 0 ≡ true }
        ensures few { length self.new.held < MOST_HELD }
        ensures room { SEGMENT * length self.new.given + length self.new.held ≤ length self.old.held }
        ensures leaves { (symbols : List ℤ) (done : List Field) → Leaves self.old symbols done
            → (fields : List Field) × Leaves self.new symbols (done ++ fields)
            × (self.new.given ≡ restored_of self.old.scale fields) × (self.new.heard ≡ heard_in fields) }
        ensures whole { (self.new.given ≡ []) ⊎ (length self.new.given ≡ FIELD_SEGMENTS) }
        ensures same { length self.new.heard ≡ length self.new.given }
        ensures total { self.new.segments ≡ self.old.segments + length self.new.given }
        ensures scale { self.new.scale ≡ self.old.scale }
        ensures symbols { self.new.symbols ≡ self.old.symbols }
    {
        let symbols = self.held.all();
        let step = step_of(symbols);
        self.giver.give(symbols, step.given, self.begins);
        self.gone = step.count;
        self.on = step.on;
        self.begins = step.begins;
    }
}

/// Drops the first `gone` symbols.
fn forget(held: &mut SymbolWindow, gone: usize)
    requires { gone ≤ length held.old }
    ensures { held.new ≡ drop gone held.old }
{
    if gone > 0 {
        held.leave(gone);
    }
}

/// How many whole segments these symbols have from the sync in front of them on, at most a field, or 0 without a sync.
fn whole_segments(on: bool, symbols: usize) -> usize
    ensures few { result ≤ FIELD }
    ensures room { SEGMENT * result ≤ symbols }
    ensures last { on ≡ true → symbols < MOST_HELD → result ≡ symbols / SEGMENT }
    ensures none { on ≡ false → result ≡ 0 }
{
    if on {
        (symbols / SEGMENT).min(FIELD)
    } else {
        0
    }
}
