//! The soft decoder.

ghost use Rattle.std.specs.Prelude.{◌≡◌, ℕ, ◌+◌, ◌*◌, ◌%◌, ◌<◌, ◌≤◌, EachIndex, IfOk, length, slice_index};
ghost use Rattle.dtx_soft.specs.Paths.{cost};
ghost use Rattle.dtx_soft.specs.Least.{ArePotentials, HoldPotentials, IsLeast};
ghost use Rattle.dtx_soft.specs.Coders.{IsSoftened, coder_symbols, coders_distance};
ghost use Rattle.dtx_soft.specs.Decoder.{new_decoder};

use crate::coders::gather;
use crate::field::FieldDecoder;
use crate::nearest::MAX_SCALE;
use crate::walk::{Found, MAX_SYMBOLS};
use crate::walker::Walker;
use dtx_sizes::{CODERS, FIELD_PACKETS, SEGMENT, SEGMENT_ROUNDS};
use std::alloc::{AllocError, Global};
use std::marker::Model;

/// Decodes the symbols of a trellis coder (ATSC A/53 Part 2, trellis coding). It finds the path whose levels lie
/// nearest to the symbols, in the sum of the squares. Contracts see its scale, and the potentials of the symbols that
/// it decoded last.
#[derive(Drop)]
pub struct Soft {
    walker: Walker,
    entries: usize,
    symbols: Vec<i8>,
    decoder: FieldDecoder,
    ghost one_scale: { decoder ≡ walker.table.scale },
}

impl Model for Soft {
    ghost use Rattle.std.specs.Prelude.{◌≡◌, ◌≤◌, take, vec_len};
    ghost use Rattle.dtx_soft.specs.declared.walk.TheConstants.{MAX_SYMBOLS};
    ghost use Rattle.dtx_soft.specs.declared.walker.TheConstants.{ENTRIES};
    ghost use Rattle.dtx_soft.specs.Decoder.{Decoder};

    ghost Value = { Decoder };

    ghost view = { λ s. record {
      scale = s.walker.table.scale;
      potentials = take s.entries s.walker.potentials.items;
    } };

    ghost invariant = { λ s. (s.entries ≤ ENTRIES) × (vec_len s.symbols ≡ MAX_SYMBOLS) };
}

impl Soft {
    /// A decoder of symbols at the standard's levels, which are 2 * z - 7 for z from 0 to 7. The only error is out of
    /// memory.
    pub fn new(alloc: Global) -> Result<Soft, AllocError>
        ensures { IfOk result (λ soft. soft ≡ new_decoder 1) }
    {
        Soft::scaled(alloc, 1)
    }

    /// A decoder of symbols at `scale` times the standard's levels. The only error is out of memory.
    pub fn scaled(alloc: Global, scale: u8) -> Result<Soft, AllocError>
        requires { scale ≤ MAX_SCALE }
        ensures { IfOk result (λ soft. soft ≡ new_decoder scale) }
    {
        Ok(Soft {
            walker: Walker::new(alloc, scale)?,
            entries: 0,
            symbols: vec![in alloc; 0i8; MAX_SYMBOLS]?,
            decoder: FieldDecoder::scaled(alloc, scale)?,
        })
    }

    /// Writes the levels of the least path over a coder's symbols, and returns its cost and start.
    pub fn best(&mut self, symbols: &[i8], levels: &mut [u8]) -> Found
        requires few { length symbols.now ≤ MAX_SYMBOLS }
        requires room { length levels.old ≡ length symbols.now }
        ensures least { IsLeast self.old.scale symbols.now result.start levels.new }
        ensures cost { result.cost ≡ cost self.old.scale symbols.now levels.new }
        ensures small { EachIndex levels.new (λ t. slice_index levels.new t < 8) }
        ensures potentials { ArePotentials self.old.scale symbols.now self.new.potentials }
        ensures scale { self.new.scale ≡ self.old.scale }
    {
        self.entries = symbols.len() + 1;
        self.walker.find(symbols, levels)
    }

    /// The potentials of the symbols that were decoded last, one entry more than there were symbols. Entry t has, for
    /// each state, the least cost of a path over the symbols from t on. Before any symbols the list is empty.
    pub fn potentials(&self) -> &[[u32; 4]]
        ensures { result.now ≡ self.now.potentials }
    {
        &self.walker.potentials[..self.entries]
    }

    /// Replaces the symbols of each of the twelve coders by those of its least path, in the first data segments of a
    /// field. It returns the sum of the costs of the twelve paths. The potentials are then those of coder 11's symbols
    /// as they were given.
    pub fn field(&mut self, segments: &mut [[i8; SEGMENT]]) -> u64
        requires whole { length segments.old % 4 ≡ 0 }
        requires few { length segments.old ≤ FIELD_PACKETS }
        ensures segments { IsSoftened self.old.scale segments.old segments.new }
        ensures cost { result ≡ coders_distance segments.old segments.new CODERS }
        ensures potentials { ArePotentials self.old.scale (coder_symbols segments.old 11) self.new.potentials }
        ensures scale { self.new.scale ≡ self.old.scale }
    {
        self.entries = SEGMENT_ROUNDS * segments.len() + 1;
        hold_last(&mut self.walker, &mut self.symbols[..], segments);
        self.decoder.field(segments)
    }
}

/// Writes the potentials of the last coder's symbols to the walker's table.
fn hold_last(walker: &mut Walker, symbols: &mut [i8], segments: &[[i8; SEGMENT]])
    requires few { length segments.now ≤ FIELD_PACKETS }
    requires symbols { length symbols.old ≡ MAX_SYMBOLS }
    ensures potentials { HoldPotentials walker.old.table.scale (coder_symbols segments.now 11)
        walker.new.potentials.items }
    ensures table { walker.new.table ≡ walker.old.table }
{
    let symbols = &mut symbols[..SEGMENT_ROUNDS * segments.len()];
    gather(segments, CODERS - 1, symbols);
    walker.hold(symbols);
}
