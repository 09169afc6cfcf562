// The restorer of `acquire`: an acquirer.
ghost use Rattle.std.specs.Prelude.{◌≡◌};
ghost use Rattle.dtx_meaning.specs.Status.{IsOfBytes, blame_of};
ghost use Rattle.dtx_outside.specs.Counts.{Nothing};
ghost use Rattle.dtx_recipes.specs.Acquire.{acquired_answer};

use crate::restorer::Restorer;
use crate::symbol_buffer::SymbolBuffer;
use dtx_acquire::{Acquirer, MOST_HELD};
use dtx_forms::{PIECE_BYTES, Setting};
use dtx_meaning::{Outcome, Status, done, ended};
use dtx_sizes::SEGMENT;
use std::alloc::{AllocError, Global};

/// The most symbols that a piece brings: its own, and those that were held before it.
pub(crate) const ACQUIRED_BYTES: usize = PIECE_BYTES + MOST_HELD;

impl Restorer<ACQUIRED_BYTES> for Acquirer {
    ghost use Rattle.std.specs.Prelude.{length};
    ghost use Rattle.dtx_acquire.specs.Acquirer.{StandsFor};
    ghost use Rattle.dtx_words.specs.declared.rows.Command.TheVariants as command;
    ghost use Rattle.dtx_recipes.specs.Acquire.{with_acquirer};
    ghost use Rattle.dtx_recipes.proofs.AcquireLemmas.{acquire_knows, acquires};

    ghost command = { command.Acquire };

    ghost makes = { λ scale rounds. with_acquirer scale };

    ghost restoring = { λ a. with_acquirer a.scale };

    ghost stands = { StandsFor };

    ghost held = { λ a. length a.held };

    ghost given = { λ a. a.given };

    fn new(alloc: Global, setting: Setting) -> Result<Acquirer, AllocError> {
        Acquirer::new(alloc, setting.scale)
    }

    fn known(&self) {}

    fn take(&mut self, symbols: &[i8]) -> usize {
        Acquirer::take(self, symbols)
    }

    fn given(&self) -> &[[i8; SEGMENT]] {
        Acquirer::given(self)
    }

    fn finish(&mut self, gathered: &mut SymbolBuffer<ACQUIRED_BYTES>) -> Outcome {
        Acquirer::finish(self);
        gathered.push_all(Acquirer::given(self));
        answer(self)
    }

    ghost restores = { λ a. acquires a.scale };

    ghost knows = { λ scale rounds. acquire_knows scale };
}

/// The answer of `acquire`: `NoSync` where there is no run, else `Done` with five numbers.
fn answer(acquirer: &Acquirer) -> Outcome
    ensures outcome { result
        ≡ acquired_answer acquirer.now.symbols acquirer.now.runs acquirer.now.segments acquirer.now.cost }
    ensures verdict { blame_of result.status ≡ Nothing }
    ensures bytes { IsOfBytes result.status }
{
    let runs = acquirer.runs();
    if runs == 0 {
        return ended(Status::NoSync);
    }
    done(&[
        acquirer.symbols(),
        runs,
        acquirer.segments(),
        acquirer.cost(),
        acquirer.loose(),
    ])
}
