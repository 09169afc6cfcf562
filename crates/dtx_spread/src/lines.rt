//! Branches, each of which is a ring of its own. The interleaver and the de-interleaver share them: `W` gives the
//! branches' widths.

ghost use Rattle.std.specs.Prelude.{◌≡◌, ◌*◌, ◌<◌, length, map, IfOk};
ghost use Rattle.std.specs.List.{range_with_len};
ghost use Rattle.circular_buffer.specs.Buffer.{Buffer, buffer};
ghost use Rattle.dtx_laws.specs.Branches.{IsInterleaver, HasWidths, zeroed, aligned, leaving_all, after_all};

use crate::columns::ROWS;
use crate::rings::{through, zeros};
use crate::scratch::Columns;
use crate::widths::Widths;
use circular_buffer::HeapCircularBuffer;
use std::alloc::{AllocError, Global};
use std::marker::{Model, PhantomData};

/// `B` branches, each of which holds as many bytes as its width in `W`.
#[derive(Drop)]
pub(crate) struct Lines<W: Widths<B, M>, const B: usize, const M: usize> {
    widths: PhantomData<W>,
    next: usize,
    rings: Vec<HeapCircularBuffer<u8>>,
    /// In a block of its own, since values of this type are moved while they are made.
    columns: Box<Columns>,
}

impl<W: Widths<B, M>, const B: usize, const M: usize> Model for Lines<W, B, M> {
    ghost use Rattle.dtx_laws.specs.Branches.{Branching, IsInterleaver, HasWidths};
    ghost use Rattle.dtx_spread.specs.Rings.{branches_of};

    ghost Value = { Branching };

    ghost view = { λ s. branches_of s.next s.rings.items };

    ghost invariant = { λ s. IsInterleaver B M × HasWidths B W.widths (branches_of s.next s.rings.items) };
}

impl<W: Widths<B, M>, const B: usize, const M: usize> Lines<W, B, M> {
    /// Branches that are aligned, with zeros in each. The only error is out of memory.
    pub(crate) fn new(alloc: Global) -> Result<Self, AllocError>
        requires { IsInterleaver B M }
        ensures { IfOk result (λ lines. lines ≡ zeroed B W.widths) }
    {
        let columns = Box::new(alloc, Columns::new())?;
        let mut rings = Vec::new(alloc);
        for i in 0..B {
            rings.push(zeros(alloc, W::width(i))?)?;
        }
        Ok(Lines {
            widths: PhantomData,
            next: 0,
            rings,
            columns,
        })
    }

    /// Gives proofs a fact, and has no effect. `B` and `M` are the numbers of an interleaver, the next branch is below
    /// `B`, and each branch holds as many bytes as its width.
    pub(crate) fn known(&self)
        ensures numbers { IsInterleaver B M }
        ensures widths { HasWidths B W.widths self.now }
    {
        // Reading a field gives proofs what each value keeps.
        let _next = &self.next;
    }

    /// Replaces each byte by the one that leaves the next branch.
    pub(crate) fn pass(&mut self, bytes: &mut [u8])
        ensures bytes { bytes.new ≡ leaving_all B self.old bytes.old }
        ensures branches { self.new ≡ after_all B self.old bytes.old }
    {
        self.known();
        let mut done = 0;
        while done < bytes.len() {
            let count = (bytes.len() - done).min((ROWS - 1) * B);
            self.pass_some(&mut bytes[done..done + count]);
            done += count;
        }
    }

    /// Makes branch 0 the next one. The branches keep what they hold.
    pub(crate) fn align(&mut self)
        ensures { self.new ≡ aligned self.old }
    {
        self.next = 0;
    }

    /// Replaces at most as many bytes as there is room for.
    fn pass_some(&mut self, bytes: &mut [u8])
        requires { length bytes.old < ROWS * B }
        ensures bytes { bytes.new ≡ leaving_all B self.old bytes.old }
        ensures branches { self.new ≡ after_all B self.old bytes.old }
    {
        through::<B>(&mut self.rings, self.next, bytes, &mut *self.columns);
        self.next = (self.next + bytes.len()) % B;
    }
}
