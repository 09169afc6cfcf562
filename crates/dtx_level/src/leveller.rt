//! Levels a capture as its symbols come.

ghost use Rattle.std.specs.Prelude.{◌≡◌, ℤ, ◌+◌, ◌*◌, ◌<◌, ◌≤◌, ◌++◌, true, false, [], List, IfOk};
ghost use Rattle.std.specs.Prelude.{length, take, drop, if◌then◌else◌};
ghost use Rattle.dtx_level.specs.Shown.{shows};
ghost use Rattle.dtx_level.specs.Syncs.{all_syncs, slips};
ghost use Rattle.dtx_level.specs.Levelled.{levelled_rest, levelled_so_far};
ghost use Rattle.dtx_level.specs.Measures.{measures_rest, measures_so_far};
ghost use Rattle.dtx_level.specs.Leveller.{StandsFor, all_given, as_list, cleared, closed, fed, found, passed, settled};
ghost use Rattle.dtx_level.specs.Leveller.{sought, stretched};

use crate::giver::Giver;
use crate::measure::{Measure, measure_of};
use crate::pattern::Pattern;
use crate::step::{Step, step_of};
use crate::tally::Tally;
use dtx_acquire::{MOST_HELD, SymbolWindow, search};
use dtx_sizes::{MOST_SYMBOLS, SEGMENT};
use std::alloc::{AllocError, Global};
use std::marker::Model;

/// Brings a capture of unknown gain, constant and polarity to eight steps a unit by its field syncs. It measures each
/// sync (the profile's own; ATSC A/53 Part 2, the levels of 8-VSB and data field sync). It is given the symbols in
/// pieces of any length. If it finds a sync, it has given as many symbols at the end as it was given. Only `new` takes
/// memory. The symbols before the first sync become zeros, and the others are levelled. `StandsFor leveller symbols`
/// says that these symbols were given to it. It holds at most the symbols of one field and one segment.
#[derive(Drop)]
pub struct Leveller {
    pattern: Pattern,
    held: SymbolWindow,
    on: bool,
    giver: Giver,
    silent: u64,
    zeros: u64,
    measured: Option<Measure>,
    symbols: u64,
    tally: Tally,
}

impl Model for Leveller {
    ghost use Rattle.std.specs.Prelude.{◌≡◌, ◌+◌, ◌*◌, ◌≤◌, true, length, take};
    ghost use Rattle.dtx_sizes.specs.declared.limits.TheConstants.{MOST_SYMBOLS};
    ghost use Rattle.dtx_sizes.specs.declared.segments.TheConstants.{SEGMENT};
    ghost use Rattle.dtx_level.specs.Shown.{shows};
    ghost use Rattle.dtx_level.specs.Leveller.{Holding};

    ghost Value = { Holding };

    ghost view = { λ a. record {
      held = a.held;
      on = a.on;
      by = record {
        begun = a.giver.levels.begun;
        gain = a.giver.levels.gain;
        constant = a.giver.levels.constant;
      };
      silent = a.silent;
      zeros = a.zeros;
      given = take a.giver.count a.giver.given.items;
      measured = a.measured;
      symbols = a.symbols;
      syncs = a.tally.syncs;
      slips = a.tally.slips;
      last = a.tally.last;
    } };

    ghost invariant = { λ a. (SEGMENT * a.tally.syncs + length a.held ≤ a.symbols) × (a.symbols ≤ MOST_SYMBOLS)
        × (a.tally.slips ≤ a.tally.syncs) × (a.tally.last + length a.held ≤ a.symbols)
        × (a.silent + length a.held ≤ a.symbols) × (a.on ≡ true → shows a.held 0 ≡ true) };
}

impl Leveller {
    /// A leveller to which no symbols were given. The only error is out of memory.
    pub fn new(alloc: Global) -> Result<Leveller, AllocError>
        ensures stands { IfOk result (λ leveller. StandsFor leveller []) }
        ensures symbols { IfOk result (λ leveller. leveller.symbols ≡ 0) }
    {
        Ok(Leveller {
            pattern: Pattern::new(),
            held: SymbolWindow::new(alloc)?,
            on: false,
            giver: Giver::new(alloc)?,
            silent: 0,
            zeros: 0,
            measured: None,
            symbols: 0,
            tally: Tally::new(),
        })
    }

    /// Takes the first of these symbols, as many as there is room for until the next field is whole. Returns how many
    /// it took. They bring as many zeros as `zeros` says, then the symbols of `given`, and the sync of `measured`, if
    /// there is one.
    pub fn take(&mut self, symbols: &[i8]) -> usize
        requires most { self.old.symbols + length symbols.now ≤ MOST_SYMBOLS }
        ensures within { result ≤ length symbols.now }
        ensures some { (before : List ℤ) → StandsFor self.old before → 0 < length symbols.now → 0 < result }
        ensures stands { (before : List ℤ) → StandsFor self.old before
            → StandsFor self.new (before ++ take result symbols.now) }
        ensures given { (before : List ℤ) → StandsFor self.old before
            → levelled_so_far (before ++ take result symbols.now) ≡ levelled_so_far before ++ all_given self.new }
        ensures measured { (before : List ℤ) → StandsFor self.old before
            → measures_so_far (before ++ take result symbols.now)
            ≡ measures_so_far before ++ as_list self.new.measured }
        ensures zeros { (before : List ℤ) → StandsFor self.old before → 0 < self.new.zeros
            → levelled_so_far before ≡ [] }
        ensures lines { SEGMENT * length (as_list self.new.measured) ≤ length self.new.given }
        ensures room { length self.new.given + length self.new.held ≤ length self.old.held + result }
        ensures symbols { self.new.symbols ≡ self.old.symbols + result }
    {
        self.clear();
        let count = self.hold(symbols);
        self.seek();
        self.settle();
        count
    }

    /// Ends the capture. The end brings `given` and `measured`. The numbers are then those of all symbols.
    pub fn finish(&mut self)
        ensures given { (symbols : List ℤ) → StandsFor self.old symbols → all_given self.new ≡ levelled_rest symbols }
        ensures measured { (symbols : List ℤ) → StandsFor self.old symbols
            → as_list self.new.measured ≡ measures_rest symbols }
        ensures syncs { (symbols : List ℤ) → StandsFor self.old symbols
            → self.new.syncs ≡ length (all_syncs symbols) }
        ensures slips { (symbols : List ℤ) → StandsFor self.old symbols → self.new.slips ≡ slips (all_syncs symbols) }
        ensures room { length self.new.given ≤ length self.old.held }
        ensures symbols { self.new.symbols ≡ self.old.symbols }
    {
        self.clear();
        self.close();
    }

    /// The levelled symbols that the last call brought. They stand behind its zeros.
    pub fn given(&self) -> &[i8]
        ensures { result.now ≡ self.now.given }
    {
        &self.giver.given[..self.giver.count]
    }

    /// How many zeros the last call brought before `given`. The call that finds the first sync brings one for each
    /// symbol that earlier searches let go. Other calls bring none.
    pub fn zeros(&self) -> u64
        ensures { result ≡ self.now.zeros }
    {
        self.zeros
    }

    /// The sync that the last call measured, if there is one.
    pub fn measured(&self) -> Option<Measure>
        ensures { result ≡ self.now.measured }
    {
        self.measured
    }

    /// How many symbols were given so far.
    pub fn symbols(&self) -> u64
        ensures { result ≡ self.now.symbols }
    {
        self.symbols
    }

    /// How many syncs were measured so far.
    pub fn syncs(&self) -> u64
        ensures { result ≡ self.now.syncs }
    {
        self.tally.syncs
    }

    /// How many of these syncs are slips: they don't lie a multiple of 313 segments behind the one before.
    pub fn slips(&self) -> u64
        ensures { result ≡ self.now.slips }
    {
        self.tally.slips
    }

    /// Forgets what the last call gave.
    fn clear(&mut self)
        ensures { self.new ≡ cleared self.old }
    {
        self.giver.count = 0;
        self.zeros = 0;
        self.measured = None;
    }

    /// Holds the first of these symbols too, as many as there is room for. Returns how many they are.
    fn hold(&mut self, symbols: &[i8]) -> usize
        requires { self.old.symbols + length symbols.now ≤ MOST_SYMBOLS }
        ensures within { result ≤ length symbols.now }
        ensures some { 0 < length symbols.now → length self.old.held < MOST_HELD → 0 < result }
        ensures fed { self.new ≡ fed self.old (take result symbols.now) }
        ensures few { length self.new.held ≤ MOST_HELD }
    {
        let count = self.held.take(symbols);
        self.symbols += count as u64;
        count
    }

    /// Looks for a sync, unless one is in front. Lets the symbols before the sync go. Where there is none, lets all
    /// symbols go at which no sync can begin.
    #[tactic(auto, using(crate::proofs::Shows::past_end))]
    fn seek(&mut self)
        ensures { self.new ≡ sought self.old }
    {
        if self.on {
            return;
        }
        let left = self.held.len();
        match search(&self.pattern, self.held.all(), 0) {
            Some(place) => self.find(place),
            None => self.pass(left.saturating_sub(SEGMENT - 1)),
        }
    }

    /// Lets the symbols before the sync at `place` go, and gives them. Before the first sync they become zeros, and a
    /// zero is owed for each symbol that was let go earlier.
    fn find(&mut self, place: usize)
        requires room { place ≤ length self.old.held }
        requires most { place ≤ MOST_HELD }
        requires front { shows self.old.held place ≡ true }
        ensures { self.new ≡ found self.old place }
    {
        self.zeros = owed(self.giver.levels.begun, self.silent);
        self.giver.give(&mut self.held, place);
        self.on = true;
    }

    /// Lets the first `count` symbols go, at which no sync begins. Gives them if a sync was found before them, else
    /// counts them.
    fn pass(&mut self, count: usize)
        requires off { self.old.on ≡ false }
        requires room { count ≤ length self.old.held }
        requires most { count ≤ MOST_HELD }
        ensures { self.new ≡ passed self.old count }
    {
        if self.giver.levels.begun {
            self.giver.give(&mut self.held, count);
        } else {
            self.silent += count as u64;
            self.held.leave(count);
        }
    }

    /// Gives the symbols that the sync in front levels, once the segment is held at which the next sync is due.
    fn settle(&mut self)
        ensures { self.new ≡ settled self.old }
    {
        if self.on {
            self.settle_front();
        }
    }

    /// The same where a sync is in front.
    fn settle_front(&mut self)
        requires { self.old.on ≡ true }
        ensures { self.new ≡ settled self.old }
    {
        if self.held.len() == MOST_HELD {
            let step = step_of(&self.pattern, self.held.all());
            self.stretch(step);
        }
    }

    /// Measures the sync in front of the held symbols, and gives the symbols of its step, levelled by it.
    fn stretch(&mut self, step: Step)
        requires front { shows self.old.held 0 ≡ true }
        requires some { SEGMENT ≤ step.count }
        requires room { step.count ≤ length self.old.held }
        requires next { step.on ≡ true → shows (drop step.count self.old.held) 0 ≡ true }
        ensures { self.new ≡ stretched self.old step }
    {
        let place = self.symbols - self.held.len() as u64;
        let standing = self.pattern.standing(self.held.all(), 0);
        self.giver.levels.begin(standing.gain, standing.constant);
        self.giver.give(&mut self.held, step.count);
        self.tally.count(place);
        self.measured = Some(measure_of(&self.pattern, place, standing, &self.giver.front()));
        self.on = step.on;
    }

    /// Gives what the end brings.
    fn close(&mut self)
        ensures { self.new ≡ closed self.old }
    {
        let left = self.held.len();
        if self.on {
            self.stretch(Step {
                count: left,
                on: false,
            });
        } else if self.giver.levels.begun {
            self.giver.give(&mut self.held, left);
        }
    }
}

/// How many zeros to give where a sync is found. The first sync gives one for each symbol that was let go before it.
fn owed(begun: bool, silent: u64) -> u64
    ensures { result ≡ (if begun then 0 else silent) }
{
    if begun { 0 } else { silent }
}
