// `soft IN OUT`: symbols with each coder's replaced by those of its least path.
ghost use Rattle.dtx_forms.specs.Job.{IsJobPerformed};
ghost use Rattle.dtx_forms.specs.Stages.{IsStaged};
ghost use Rattle.dtx_recipes.specs.Soft.{soft_job};

use crate::softening::Softening;
use dtx_forms::transform;
use dtx_meaning::Outcome;
use dtx_outside::{Shelf, Word};
use dtx_steps::Steps;
use std::alloc::Global;

/// Writes the symbols IN to OUT, softened (ATSC A/53 Part 2, trellis coding). In each field of a run, the data segments
/// in whole groups of four are softened: the symbols of each coder become those of its least path. All other segments
/// are copied, and the bytes behind the last whole segment are left out. The numbers are the segments, the fields with
/// a whole group, what all least paths cost, and the bytes left out.
pub fn soft<S: Shelf>(alloc: Global, words: &[Word], shelf: &mut S) -> Outcome
    ensures performed { IsJobPerformed soft_job words.now result (S.files shelf.old) (S.files shelf.new)
        (S.counts shelf.old) (S.counts shelf.new) }
    ensures stages { IsStaged S.foreseen (soft_job.stages words.now) result.status
        (S.files shelf.old) (S.files shelf.new) (S.counts shelf.old) (S.counts shelf.new) }
{
    transform::<Steps<Softening>, S>(alloc, words, shelf)
}
