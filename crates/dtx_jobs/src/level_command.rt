// `level IN OUT LOG`: a capture of unknown gain at eight steps a unit.
ghost use Rattle.dtx_forms.specs.Job.{IsJobPerformed};
ghost use Rattle.dtx_forms.specs.Stages.{IsStaged};
ghost use Rattle.dtx_recipes.specs.Level.{level_job};

use crate::levelling::Levelling;
use dtx_forms::transform_logged;
use dtx_meaning::Outcome;
use dtx_outside::{Shelf, Word};
use std::alloc::Global;

/// Brings the capture IN to eight steps a unit by its field syncs, and writes it to OUT (the profile's own; ATSC A/53
/// Part 2, the levels of 8-VSB and data field sync). LOG gets a line for each sync. IN has one signed byte for each
/// symbol. It may have any gain and any constant, and be turned or not. The numbers are the bytes of IN, the syncs, and
/// the syncs that don't lie a multiple of 313 segments behind the one before. Like `receive`, it refuses an input that
/// is too long (`TooLong`) or has no sync (`NoSync`).
pub fn level<S: Shelf>(alloc: Global, words: &[Word], shelf: &mut S) -> Outcome
    ensures performed { IsJobPerformed level_job words.now result (S.files shelf.old) (S.files shelf.new)
        (S.counts shelf.old) (S.counts shelf.new) }
    ensures stages { IsStaged S.foreseen (level_job.stages words.now) result.status
        (S.files shelf.old) (S.files shelf.new) (S.counts shelf.old) (S.counts shelf.new) }
{
    transform_logged::<Levelling, S>(alloc, words, shelf)
}
