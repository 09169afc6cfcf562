// Where a command writes: one output, or two.
ghost use Rattle.std.specs.Prelude.{◌≡◌, ◌≢◌, ℕ, List, [], ◌∷◌, Option, IfOk, IfErr, IsOk};
ghost use Rattle.dtx_outside.specs.Counts.{HasGone, Rose};
ghost use Rattle.dtx_outside.specs.Shelf.{Files};
ghost use Rattle.dtx_meaning.specs.Meaning.{ArePartWritten};
ghost use Rattle.dtx_meaning.specs.Status.{blame_of_answer};
ghost use Rattle.dtx_meaning.specs.declared.status.Status.TheVariants.{ReadFault};
ghost use Rattle.dtx_engine.specs.Made.{Made, both, joined, only, outputs_of};
ghost use Rattle.dtx_engine.specs.Outlet.{IsAllPut, IsFaultAlone, IsPut};
ghost use Rattle.dtx_engine.specs.Stages.{AreAllNearly};

use dtx_meaning::Status;
use dtx_outside::{Output, PIECE, Shelf};
use std::alloc::{AllocError, Global};

/// The outputs of a command: one, or two that are written side by side. Each call's error is an I/O error or out of
/// memory.
pub trait Outlet {
    /// Their names, in the order in which they are begun.
    ghost names: { Self → List (List ℕ) };

    /// Relates the value to the files at the start, the bytes given since, and the files now. Each output now has a
    /// prefix of its bytes, and the value holds the rest.
    ghost gathered: { Self → Option Files → Made → Option Files → Type 0 };

    /// Nothing was given, and the names differ.
    ghost fresh: { Self → Type 0 };

    /// Begins all outputs.
    fn begin<S: Shelf>(&mut self, shelf: &mut S) -> Result<(), Status>
        requires { fresh self.old }
        ensures begun { (start : Option Files) → S.files shelf.old ≡ start
            → IsPut (names self.old) start (only []) result (gathered self.new) (S.files shelf.new) }
        ensures kept { names self.new ≡ names self.old }
        ensures fault { IsFaultAlone result }
        ensures gone { HasGone (S.counts shelf.old) (S.counts shelf.new) (blame_of_answer result) }
        ensures writes { IfErr result (λ status. status ≢ ReadFault) };

    /// Takes bytes for the first output, and for the second if there is one.
    fn write<S: Shelf>(&mut self, shelf: &mut S, first: &[u8], second: &[u8]) -> Result<(), Status>
        ensures written { (start : Option Files) (given : Made) → gathered self.old start given (S.files shelf.old)
            → IsPut (names self.old) start (joined given (both first.now second.now)) result (gathered self.new)
            (S.files shelf.new) }
        ensures kept { names self.new ≡ names self.old }
        ensures fault { IsFaultAlone result }
        ensures gone { HasGone (S.counts shelf.old) (S.counts shelf.new) (blame_of_answer result) }
        ensures nothing { first.now ≡ [] → second.now ≡ [] → IsOk result }
        ensures writes { IfErr result (λ status. status ≢ ReadFault) };

    /// Writes all bytes that are gathered to the files.
    fn flush<S: Shelf>(&mut self, shelf: &mut S) -> Result<(), Status>
        ensures flushed { (start : Option Files) (given : Made) → gathered self.old start given (S.files shelf.old)
            → IsAllPut (names self.old) start given result (S.files shelf.new) }
        ensures kept { names self.new ≡ names self.old }
        ensures fault { IsFaultAlone result }
        ensures gone { HasGone (S.counts shelf.old) (S.counts shelf.new) (blame_of_answer result) }
        ensures writes { IfErr result (λ status. status ≢ ReadFault) }
        ensures nearly { ¬ Rose (S.counts shelf.old).write_faults (S.counts shelf.new).write_faults
            → AreAllNearly (names self.old) (gathered self.old) (S.files shelf.old) (S.files shelf.new) };

    /// There is at least one output.
    ghost some: { (w : Self) → names w ≢ [] };

    /// Each output has a prefix of what was given for it.
    ghost part: { (w : Self) (start : Option Files) (made : Made) (now : Option Files) → gathered w start made now
        → ArePartWritten (outputs_of (names w) made) start now };
}

/// One output.
#[derive(Drop)]
pub struct OneOutput<'a> {
    name: &'a str,
    output: Output<PIECE>,
}

impl<'a> OneOutput<'a> {
    /// The output of that name, to which nothing was given. It allocates `PIECE` bytes. The only error is out of
    /// memory. (Use `match` on the result: with `?` the proof is not found.)
    pub fn new(alloc: Global, name: &'a str) -> Result<OneOutput<'a>, AllocError>
        ensures { IfOk result (λ w. ⟦<OneOutput<'a> as Outlet>⟧.fresh w
            × (⟦<OneOutput<'a> as Outlet>⟧.names w ≡ name.now ∷ [])) }
    {
        Ok(OneOutput {
            name,
            output: Output::new(alloc)?,
        })
    }
}

#[tactic(auto, using(dtx_meaning::proofs::MeaningLemmas::write_is_fault))]
impl<'a> Outlet for OneOutput<'a> {
    ghost use Rattle.std.proofs.Common.{◌≡◌, [], ◌∷◌, inr};
    ghost use Rattle.dtx_outside.specs.Shelf.{IsGathered};

    ghost names = { λ w. w.name.now ∷ [] };

    ghost gathered = { λ w start given now. IsGathered start w.name.now given.first w.output now };

    ghost fresh = { λ w. w.output ≡ [] };

    fn begin<S: Shelf>(&mut self, shelf: &mut S) -> Result<(), Status> {
        shelf.begin(self.name)?;
        Ok(())
    }

    fn write<S: Shelf>(
        &mut self,
        shelf: &mut S,
        first: &[u8],
        _second: &[u8],
    ) -> Result<(), Status> {
        self.output.write(shelf, self.name, first)?;
        Ok(())
    }

    fn flush<S: Shelf>(&mut self, shelf: &mut S) -> Result<(), Status> {
        self.output.known();
        self.output.flush(shelf, self.name)?;
        Ok(())
    }

    ghost some = { λ w none. cc };

    ghost part = { λ w start made now is. inr (is.front, (w.output, is.whole), is.file) };
}

/// How many bytes are gathered at most for each of two outputs. Few are enough: the whole pages of a large piece go
/// straight to the file, and only the rest of a page is gathered.
const GATHERED: usize = 16_384;

/// Two outputs, under two names.
#[derive(Drop)]
pub struct TwoOutputs<'a> {
    first: &'a str,
    second: &'a str,
    first_output: Output<GATHERED>,
    second_output: Output<GATHERED>,
}

impl<'a> TwoOutputs<'a> {
    /// The outputs of these names, to which nothing was given. It allocates 16,384 bytes for each. The only error is
    /// out of memory. (Use `match` on the result: with `?` the proof is not found.)
    pub fn new(alloc: Global, first: &'a str, second: &'a str) -> Result<TwoOutputs<'a>, AllocError>
        requires { first.now ≢ second.now }
        ensures { IfOk result (λ w. ⟦<TwoOutputs<'a> as Outlet>⟧.fresh w
            × (⟦<TwoOutputs<'a> as Outlet>⟧.names w ≡ first.now ∷ second.now ∷ [])) }
    {
        Ok(TwoOutputs {
            first,
            second,
            first_output: Output::new(alloc)?,
            second_output: Output::new(alloc)?,
        })
    }
}

#[tactic(auto, using(dtx_meaning::proofs::MeaningLemmas::write_is_fault))]
impl<'a> Outlet for TwoOutputs<'a> {
    ghost use Rattle.std.proofs.Common.{◌≡◌, ◌≢◌, [], ◌∷◌, inr};
    ghost use Rattle.dtx_engine.specs.Outlet.{AreBothGathered};

    ghost names = { λ w. w.first.now ∷ w.second.now ∷ [] };

    ghost gathered = { λ w start given now. (w.first.now ≢ w.second.now)
        × AreBothGathered w.first.now w.second.now start given w.first_output w.second_output now };

    ghost fresh = { λ w. (w.first.now ≢ w.second.now) × (w.first_output ≡ []) × (w.second_output ≡ []) };

    fn begin<S: Shelf>(&mut self, shelf: &mut S) -> Result<(), Status> {
        shelf.begin(self.first)?;
        shelf.begin(self.second)?;
        Ok(())
    }

    fn write<S: Shelf>(
        &mut self,
        shelf: &mut S,
        first: &[u8],
        second: &[u8],
    ) -> Result<(), Status> {
        self.first_output.write(shelf, self.first, first)?;
        self.second_output.write(shelf, self.second, second)?;
        Ok(())
    }

    fn flush<S: Shelf>(&mut self, shelf: &mut S) -> Result<(), Status> {
        self.first_output.known();
        self.second_output.known();
        self.first_output.flush(shelf, self.first)?;
        self.second_output.flush(shelf, self.second)?;
        Ok(())
    }

    ghost some = { λ w none. cc };

    ghost part = { λ w start made now is. inr (
      is.1.one_front,
      (w.first_output, is.1.first),
      inr (
        is.1.other_front,
        (w.second_output, is.1.second),
        is.1.files,
      ),
    ) };
}
