// `receive IN OUT`: the packets of a symbol file.
ghost use Rattle.dtx_forms.specs.Job.{IsJobPerformed};
ghost use Rattle.dtx_forms.specs.Stages.{IsStaged};
ghost use Rattle.dtx_recipes.specs.Receive.{receive_job};

use crate::reception::Reception;
use dtx_forms::transform;
use dtx_meaning::Outcome;
use dtx_outside::{Shelf, Word};
use dtx_receiver::Receiver;
use dtx_steps::Steps;
use std::alloc::Global;

/// Writes the packets of the symbols IN to OUT (ATSC A/53 Part 2, the way back). It writes the packets of every run of
/// segments. A run begins with a segment that looks like a field sync. Each packet's errors are corrected. A packet
/// whose word has no correction is flagged. The numbers are the segments read, the runs, the packets written, the bytes
/// put right, the packets flagged, and the bytes behind the last whole segment.
pub fn receive<S: Shelf>(alloc: Global, words: &[Word], shelf: &mut S) -> Outcome
    ensures performed { IsJobPerformed receive_job words.now result (S.files shelf.old) (S.files shelf.new)
        (S.counts shelf.old) (S.counts shelf.new) }
    ensures stages { IsStaged S.foreseen (receive_job.stages words.now) result.status
        (S.files shelf.old) (S.files shelf.new) (S.counts shelf.old) (S.counts shelf.new) }
{
    transform::<Steps<Reception<Receiver>>, S>(alloc, words, shelf)
}
