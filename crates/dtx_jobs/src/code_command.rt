// `code IN OUT`: the symbols of a stream.
ghost use Rattle.dtx_forms.specs.Job.{IsJobPerformed};
ghost use Rattle.dtx_forms.specs.Stages.{IsStaged};
ghost use Rattle.dtx_recipes.specs.Code.{code_job};

use crate::stream_coder::StreamCoder;
use dtx_forms::transform;
use dtx_meaning::Outcome;
use dtx_outside::{Shelf, Word};
use dtx_steps::Steps;
use std::alloc::Global;

/// Writes the symbols of the stream or feed IN to OUT, one signed byte each in two's complement. The whole groups of
/// four packets give data segments and field syncs, and OUT has the symbols of all of them (ATSC A/53 Part 2). Byte 0
/// of each packet must be 0x47 or the mark 0xB8, and isn't sent. The numbers are the packets, the segments, and the
/// bytes behind the last whole packet.
pub fn code<S: Shelf>(alloc: Global, words: &[Word], shelf: &mut S) -> Outcome
    ensures performed { IsJobPerformed code_job words.now result (S.files shelf.old) (S.files shelf.new)
        (S.counts shelf.old) (S.counts shelf.new) }
    ensures stages { IsStaged S.foreseen (code_job.stages words.now) result.status
        (S.files shelf.old) (S.files shelf.new) (S.counts shelf.old) (S.counts shelf.new) }
{
    transform::<Steps<StreamCoder>, S>(alloc, words, shelf)
}
