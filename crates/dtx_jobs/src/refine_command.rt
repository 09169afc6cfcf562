// `refine SCALE ROUNDS IN OUT`: the segments of a capture, decided in rounds.
ghost use Rattle.dtx_forms.specs.Job.{IsJobPerformed};
ghost use Rattle.dtx_forms.specs.Stages.{IsStaged};
ghost use Rattle.dtx_recipes.specs.Refine.{refine_job};

use crate::acquisition::Acquisition;
use crate::refining::REFINED_BYTES;
use dtx_forms::transform_in_rounds;
use dtx_meaning::Outcome;
use dtx_outside::{Shelf, Word};
use dtx_refine::Refiner;
use std::alloc::Global;

/// Finds the fields of the capture IN as `acquire` does, decides their symbols in ROUNDS rounds, and writes their
/// segments to OUT (the profile's own; ATSC A/53 Part 2, trellis coding). The words that can be put right before a
/// round pin its paths. ROUNDS is 1 to 32. The numbers are the bytes of IN, the runs, the segments, what the last
/// round's least paths cost, how many words it knew, how many symbols it moved, and the bytes in no segment. IN is
/// refused as by `acquire`.
pub fn refine<S: Shelf>(alloc: Global, words: &[Word], shelf: &mut S) -> Outcome
    ensures performed { IsJobPerformed refine_job words.now result (S.files shelf.old) (S.files shelf.new)
        (S.counts shelf.old) (S.counts shelf.new) }
    ensures stages { IsStaged S.foreseen (refine_job.stages words.now) result.status
        (S.files shelf.old) (S.files shelf.new) (S.counts shelf.old) (S.counts shelf.new) }
{
    transform_in_rounds::<Acquisition<Refiner, REFINED_BYTES>, S>(alloc, words, shelf)
}
