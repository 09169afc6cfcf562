//! Symbols that are decided one by one: each becomes the symbol of its level at a scale.

ghost use Rattle.std.specs.Prelude.{◌≡◌, ◌<◌, ◌≤◌, ℕ, ℤ, pos, ◌-ℤ◌, EachIndex, IfOk, drop, length, map};
ghost use Rattle.std.specs.Prelude.{slice_index, vec_len};
ghost use Rattle.dtx_trellis.specs.Trellis.{symbol_of};
ghost use Rattle.dtx_acquire.specs.Acquired.{IsLevel, decided, scaled_level};

use dtx_sizes::{PRECODE, SEGMENT, SEGMENT_LEVELS, SEGMENT_SYNC};
use dtx_soft::MAX_SCALE;
use std::alloc::{AllocError, Global};

/// How many values a symbol can have, from -128 to 127.
const SYMBOLS: usize = 256;

/// The level of each symbol v, as entry v + 128.
#[derive(Drop)]
pub(crate) struct Decisions {
    pub(crate) scale: u8,
    levels: Vec<u8>,
    ghost from: { 0 < scale },
    ghost to: { scale ≤ 18 },
    ghost long: { vec_len levels ≡ 256 },
    ghost each: { (n : ℕ) → n < 256 → IsLevel scale (pos n -ℤ pos 128) (slice_index levels.items n) },
}

impl Decisions {
    /// The levels at a scale. The only error is out of memory.
    pub(crate) fn new(alloc: Global, scale: u8) -> Result<Decisions, AllocError>
        requires from { 0 < scale }
        requires to { scale ≤ MAX_SCALE }
        ensures { IfOk result (λ decisions. decisions.scale ≡ scale) }
    {
        let mut levels = vec![in alloc; 0u8; SYMBOLS]?;
        fill(&mut levels[..], scale);
        Ok(Decisions { scale, levels })
    }

    /// Writes the levels of the data symbols of a segment.
    pub(crate) fn levels(&self, segment: &[i8; SEGMENT], out: &mut [u8; SEGMENT_LEVELS])
        ensures levels { out.new ≡ map (scaled_level self.now.scale) (drop 4 segment.now) }
        ensures small { EachIndex out.new (λ d. slice_index out.new d < 8) }
    {
        for d in 0..SEGMENT_LEVELS {
            out[d] = self.level(segment[SEGMENT_SYNC + d]);
        }
    }

    /// The last twelve symbols of a segment, decided.
    pub(crate) fn last(&self, segment: &[i8; SEGMENT]) -> [i8; PRECODE]
        ensures { result ≡ map (decided self.now.scale) (drop 820 segment.now) }
    {
        let mut out = [0; PRECODE];
        for q in 0..PRECODE {
            out[q] = symbol_at(self.level(segment[SEGMENT - PRECODE + q]));
        }
        out
    }

    /// The level of a symbol.
    #[inline(always)]
    fn level(&self, symbol: i8) -> u8
        ensures { IsLevel self.now.scale symbol result }
    {
        self.levels[(symbol as i16 + 128) as usize]
    }
}

/// Writes the level of each symbol.
fn fill(levels: &mut [u8], scale: u8)
    requires from { 0 < scale }
    requires to { scale ≤ MAX_SCALE }
    requires long { length levels.old ≡ SYMBOLS }
    ensures long { length levels.new ≡ SYMBOLS }
    ensures each { (n : ℕ) → n < SYMBOLS → IsLevel scale (pos n -ℤ pos 128) (slice_index levels.new n) }
{
    for n in 0..SYMBOLS {
        levels[n] = level_at(scale, n as u16);
    }
}

/// The level of symbol n - 128 at a scale.
fn level_at(scale: u8, n: u16) -> u8
    requires from { 0 < scale }
    requires to { scale ≤ MAX_SCALE }
    requires within { n < SYMBOLS }
    ensures { IsLevel scale (pos n -ℤ pos 128) result }
{
    let steps = (n + 8 * scale as u16).saturating_sub(128);
    (steps / (2 * scale as u16)).min(7) as u8
}

/// The symbol of a level.
fn symbol_at(level: u8) -> i8
    requires { level < 8 }
    ensures { result ≡ symbol_of level }
{
    2 * level as i8 - 7
}
