//! Levels symbols and gives them out.

ghost use Rattle.std.specs.Prelude.{◌≡◌, ◌≤◌, false, IfOk, length, map, take, drop, vec_len};
ghost use Rattle.dtx_acquire.specs.declared.symbol_window.TheConstants.{MOST_HELD};
ghost use Rattle.dtx_level.specs.Levelled.{level};

use crate::levels::Levels;
use dtx_acquire::{MOST_HELD, SymbolWindow};
use dtx_sizes::SEGMENT;
use std::alloc::{AllocError, Global};

/// The levels by which symbols are levelled, and the symbols that were given last.
#[derive(Drop)]
pub(crate) struct Giver {
    pub(crate) levels: Levels,
    pub(crate) given: Vec<i8>,
    pub(crate) count: usize,
    ghost long: { vec_len given ≡ MOST_HELD },
    ghost few: { count ≤ MOST_HELD },
}

impl Giver {
    /// A giver that has given nothing. The only error is out of memory.
    pub(crate) fn new(alloc: Global) -> Result<Giver, AllocError>
        ensures levels { IfOk result (λ giver. giver.levels.begun ≡ false) }
        ensures count { IfOk result (λ giver. giver.count ≡ 0) }
    {
        Ok(Giver {
            levels: Levels::new(alloc)?,
            given: vec![in alloc; 0i8; MOST_HELD]?,
            count: 0,
        })
    }

    /// Gives the first `count` of the held symbols, levelled, and lets them go.
    pub(crate) fn give(&mut self, held: &mut SymbolWindow, count: usize)
        requires most { count ≤ MOST_HELD }
        requires room { count ≤ length held.old }
        ensures given { take self.new.count self.new.given.items
            ≡ map (level (record {
              begun = self.old.levels.begun;
              gain = self.old.levels.gain;
              constant = self.old.levels.constant;
            })) (take count held.old) }
        ensures count { self.new.count ≡ count }
        ensures held { held.new ≡ drop count held.old }
        ensures begun { self.new.levels.begun ≡ self.old.levels.begun }
        ensures gain { self.new.levels.gain ≡ self.old.levels.gain }
        ensures constant { self.new.levels.constant ≡ self.old.levels.constant }
    {
        level_front(&self.levels, held.all(), count, &mut self.given);
        self.count = count;
        held.leave(count);
    }

    /// The first segment of what was given.
    pub(crate) fn front(&self) -> [i8; SEGMENT]
        requires { SEGMENT ≤ self.now.count }
        ensures { result ≡ take SEGMENT (take self.now.count self.now.given.items) }
    {
        let mut segment = [0; SEGMENT];
        segment.copy_from_slice(&self.given[..SEGMENT]);
        segment
    }
}

/// Writes what the first `count` symbols become to the front of `out`.
fn level_front(levels: &Levels, symbols: &[i8], count: usize, out: &mut Vec<i8>)
    requires few { count ≤ vec_len out.old }
    requires room { count ≤ length symbols.now }
    ensures front { take count out.new.items ≡ map (level (record {
      begun = levels.now.begun;
      gain = levels.now.gain;
      constant = levels.now.constant;
    })) (take count symbols.now) }
    ensures long { vec_len out.new ≡ vec_len out.old }
{
    level_first(levels, symbols, count, &mut out[..])
}

/// The same for a slice.
fn level_first(levels: &Levels, symbols: &[i8], count: usize, out: &mut [i8])
    requires few { count ≤ length out.old }
    requires room { count ≤ length symbols.now }
    ensures front { take count out.new ≡ map (level (record {
      begun = levels.now.begun;
      gain = levels.now.gain;
      constant = levels.now.constant;
    })) (take count symbols.now) }
    ensures long { length out.new ≡ length out.old }
{
    levels.level_all(&symbols[..count], &mut out[..count])
}
