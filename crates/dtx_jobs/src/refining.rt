// The restorer of `refine`: a refiner.
ghost use Rattle.std.specs.Prelude.{◌≡◌, ℤ, List, []};
ghost use Rattle.dtx_meaning.specs.Status.{IsOfBytes, blame_of};
ghost use Rattle.dtx_outside.specs.Counts.{Nothing};
ghost use Rattle.dtx_jobs.specs.Restorer.{IsRefining, WasFinished};
ghost use Rattle.dtx_recipes.specs.Refine.{refined_answer};

use crate::restorer::Restorer;
use crate::symbol_buffer::SymbolBuffer;
use dtx_forms::Setting;
use dtx_meaning::{Outcome, Status, done, ended};
use dtx_refine::{MOST_ROUNDS, Refiner};
use dtx_sizes::{FIELD_SEGMENTS, SEGMENT};
use std::alloc::{AllocError, Global};

/// The most symbols that the end brings: those of a field in each round, and of the last field. A piece brings fewer.
pub(crate) const REFINED_BYTES: usize = SEGMENT * FIELD_SEGMENTS as usize * (MOST_ROUNDS + 1);

impl Restorer<REFINED_BYTES> for Refiner {
    ghost use Rattle.std.specs.Prelude.{length};
    ghost use Rattle.dtx_words.specs.declared.rows.Command.TheVariants as command;
    ghost use Rattle.dtx_jobs.specs.Restorer.{IsRefining};
    ghost use Rattle.dtx_recipes.specs.Refine.{with_refiner};
    ghost use Rattle.dtx_recipes.proofs.RefineLemmas.{refine_knows, refines};

    ghost command = { command.Refine };

    ghost makes = { with_refiner };

    ghost restoring = { λ r. with_refiner r.scale r.rounds };

    ghost stands = { IsRefining };

    ghost held = { λ r. length r.held };

    ghost given = { λ r. r.given };

    fn new(alloc: Global, setting: Setting) -> Result<Refiner, AllocError> {
        Refiner::new(alloc, setting.scale, setting.rounds)
    }

    fn known(&self) {
        self.holds_few();
    }

    fn take(&mut self, symbols: &[i8]) -> usize {
        Refiner::take(self, symbols)
    }

    fn given(&self) -> &[[i8; SEGMENT]] {
        Refiner::given(self)
    }

    fn finish(&mut self, gathered: &mut SymbolBuffer<REFINED_BYTES>) -> Outcome {
        finish_all(self, gathered);
        answer(self)
    }

    ghost restores = { λ r. refines r.scale r.rounds };

    ghost knows = { refine_knows };
}

/// Ends the symbols, and appends the last segments to `gathered`.
fn finish_all(refiner: &mut Refiner, gathered: &mut SymbolBuffer<REFINED_BYTES>)
    requires stands { (symbols : List ℤ) × IsRefining refiner.old symbols }
    requires empty { gathered.old ≡ [] }
    ensures finished { (symbols : List ℤ) → IsRefining refiner.old symbols
        → WasFinished refiner.old refiner.new symbols gathered.new }
    ensures scale { refiner.new.scale ≡ refiner.old.scale }
    ensures rounds { refiner.new.rounds ≡ refiner.old.rounds }
{
    while refiner.finish() {
        gathered.push_all(refiner.given());
    }
}

/// The answer of `refine`: `NoSync` where there is no run, else `Done` with seven numbers.
fn answer(refiner: &Refiner) -> Outcome
    ensures outcome { result
        ≡ refined_answer refiner.now.symbols refiner.now.runs refiner.now.segments refiner.now.cost refiner.now.known
        refiner.now.moved }
    ensures verdict { blame_of result.status ≡ Nothing }
    ensures bytes { IsOfBytes result.status }
{
    let runs = refiner.runs();
    if runs == 0 {
        return ended(Status::NoSync);
    }
    done(&[
        refiner.symbols(),
        runs,
        refiner.segments(),
        refiner.cost(),
        refiner.known(),
        refiner.moved(),
        refiner.loose(),
    ])
}
