// `watch FEED OUT`: whether a feed is sound.
ghost use Rattle.dtx_forms.specs.Job.{IsJobPerformed};
ghost use Rattle.dtx_forms.specs.Stages.{IsStaged};
ghost use Rattle.dtx_recipes.specs.Watch.{watch_job};

use crate::watching::Watching;
use dtx_forms::transform;
use dtx_meaning::Outcome;
use dtx_outside::{Shelf, Word};
use dtx_steps::Steps;
use std::alloc::Global;

/// Watches FEED, whose packets may have any bytes, and writes a line for each note to OUT (the profile's own). There is
/// a line where an anchor is found or lost. There is a line for each operations packet. It says whether the packet
/// reads and stands at its place, whether its states are those of the coders there, and whether the clock runs. The
/// numbers are the packets, the operations packets at their places, and those of them whose states slip and whose
/// stamps jump. Then come the operations packets that don't read, those that aren't at their places, and the bytes
/// behind the last whole packet.
pub fn watch<S: Shelf>(alloc: Global, words: &[Word], shelf: &mut S) -> Outcome
    ensures performed { IsJobPerformed watch_job words.now result (S.files shelf.old) (S.files shelf.new)
        (S.counts shelf.old) (S.counts shelf.new) }
    ensures stages { IsStaged S.foreseen (watch_job.stages words.now) result.status
        (S.files shelf.old) (S.files shelf.new) (S.counts shelf.old) (S.counts shelf.new) }
{
    transform::<Steps<Watching>, S>(alloc, words, shelf)
}
