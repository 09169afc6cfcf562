// `acquire SCALE IN OUT`: the segments of a capture of symbols that begins anywhere.
ghost use Rattle.dtx_forms.specs.Job.{IsJobPerformed};
ghost use Rattle.dtx_forms.specs.Stages.{IsStaged};
ghost use Rattle.dtx_recipes.specs.Acquire.{acquire_job};

use crate::acquiring::ACQUIRED_BYTES;
use crate::acquisition::Acquisition;
use dtx_acquire::Acquirer;
use dtx_forms::transform_scaled;
use dtx_meaning::Outcome;
use dtx_outside::{Shelf, Word};
use std::alloc::Global;

/// Finds the fields of the capture IN and writes their segments to OUT (the profile's own; ATSC A/53 Part 2, data
/// segment sync and data field sync). It decides the symbols and restores the syncs. IN has one signed byte for each
/// symbol, and SCALE steps make a unit. SCALE is 1 to 18, in decimal digits without sign and without a leading zero.
/// The numbers are the bytes of IN, the runs of which something is left, the segments, what all least paths cost, and
/// the bytes in no segment. An input that is too long is refused with `TooLong`, as by `receive`. An input of which
/// nothing is acquired is refused with `NoSync`.
pub fn acquire<S: Shelf>(alloc: Global, words: &[Word], shelf: &mut S) -> Outcome
    ensures performed { IsJobPerformed acquire_job words.now result (S.files shelf.old) (S.files shelf.new)
        (S.counts shelf.old) (S.counts shelf.new) }
    ensures stages { IsStaged S.foreseen (acquire_job.stages words.now) result.status
        (S.files shelf.old) (S.files shelf.new) (S.counts shelf.old) (S.counts shelf.new) }
{
    transform_scaled::<Acquisition<Acquirer, ACQUIRED_BYTES>, S>(alloc, words, shelf)
}
