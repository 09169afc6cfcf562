//! The de-interleaver.

ghost use Rattle.std.specs.Prelude.{◌≡◌, IfOk};
ghost use Rattle.dtx_laws.specs.Branches.{IsInterleaver, gathering, zeroed};

use crate::lines::Lines;
use crate::widths::Gathering;
use dtx_laws::Gather;
use std::alloc::{AllocError, Global};
use std::marker::Model;

/// A de-interleaver of `B` branches. Branch i delays by `M * (B - 1 - i)` of its own bytes (ATSC A/53 Part 2,
/// interleaving: the way back).
#[derive(Drop)]
pub struct Collect<const B: usize, const M: usize> {
    lines: Lines<Gathering, B, M>,
}

impl<const B: usize, const M: usize> Model for Collect<B, M> {
    ghost use Rattle.dtx_laws.specs.Branches.{Branching};

    ghost Value = { Branching };

    ghost view = { λ s. s.lines };
}

impl<const B: usize, const M: usize> Gather<B, M> for Collect<B, M> {
    ghost seen = { λ s. s };

    fn known(&self) {
        self.lines.known();
    }

    fn gather(&mut self, bytes: &mut [u8]) {
        self.lines.pass(bytes);
    }

    fn align(&mut self) {
        self.lines.align();
    }
}

impl<const B: usize, const M: usize> Collect<B, M> {
    /// A de-interleaver that is aligned, with zeros in every branch. The only error is out of memory.
    pub fn new(alloc: Global) -> Result<Self, AllocError>
        requires { IsInterleaver B M }
        ensures { IfOk result (λ collect. collect ≡ zeroed B (gathering B M)) }
    {
        Ok(Collect {
            lines: Lines::new(alloc)?,
        })
    }
}
