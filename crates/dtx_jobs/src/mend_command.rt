// `mend IN OUT`: the packets of a symbol file of which some symbols are missing.
ghost use Rattle.dtx_forms.specs.Job.{IsJobPerformed};
ghost use Rattle.dtx_forms.specs.Stages.{IsStaged};
ghost use Rattle.dtx_recipes.specs.Mend.{mend_job};

use crate::reception::Reception;
use dtx_erase::MendReceiver;
use dtx_forms::transform;
use dtx_meaning::Outcome;
use dtx_outside::{Shelf, Word};
use dtx_steps::Steps;
use std::alloc::Global;

/// Writes the packets of the symbols IN to OUT as `receive` does, but symbols may be missing (the profile's own; ATSC
/// A/53 Part 2, the way back). A symbol of value -128 means that nothing was received there. A byte that depends on a
/// missing symbol costs its word one parity byte. A wrong byte costs two. A packet whose word has no mending is
/// flagged. The numbers are the segments read, the runs, the packets written, the bytes put right (missing ones too),
/// the packets flagged, and the bytes behind the last whole segment. It has the refusals of `receive`.
pub fn mend<S: Shelf>(alloc: Global, words: &[Word], shelf: &mut S) -> Outcome
    ensures performed { IsJobPerformed mend_job words.now result (S.files shelf.old) (S.files shelf.new)
        (S.counts shelf.old) (S.counts shelf.new) }
    ensures stages { IsStaged S.foreseen (mend_job.stages words.now) result.status
        (S.files shelf.old) (S.files shelf.new) (S.counts shelf.old) (S.counts shelf.new) }
{
    transform::<Steps<Reception<MendReceiver>>, S>(alloc, words, shelf)
}
