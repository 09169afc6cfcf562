// `repeat IN ADDRESS DELAY OUT LOG`: what a transmitter that is fed from the air sends again, and its log.
ghost use Rattle.dtx_forms.specs.Job.{IsJobPerformed};
ghost use Rattle.dtx_forms.specs.Stages.{IsStaged};
ghost use Rattle.dtx_recipes.specs.Repeat.{repeat_job};

use crate::repetition::Repetition;
use dtx_forms::transmit;
use dtx_meaning::Outcome;
use dtx_outside::{Shelf, Word};
use std::alloc::Global;

/// Repeats the symbols IN (the profile's own, over ATSC A/53 Part 2 and in the manner of ATSC A/110). It receives them
/// and restores the cadence marks of their packets from the field syncs. It gives the packets of each run to an exciter
/// that starts afresh. It writes the segments that the exciter sends to OUT, one signed byte a symbol in two's
/// complement. It writes the log to LOG, with a restart at the beginning of each run but the first. ADDRESS is that of
/// the transmitter, 0 to 65,535. DELAY is how many ticks of 100 ns the feed takes to it, 0 to 4,294,967,295. Both are
/// decimal digits without sign, and without a leading zero unless the number is `0`. The numbers are the segments read,
/// the runs, the packets received, the segments written, the presets and the mutes of the log, and the bytes behind the
/// last whole segment.
pub fn repeat<S: Shelf>(alloc: Global, words: &[Word], shelf: &mut S) -> Outcome
    ensures performed { IsJobPerformed repeat_job words.now result (S.files shelf.old) (S.files shelf.new)
        (S.counts shelf.old) (S.counts shelf.new) }
    ensures stages { IsStaged S.foreseen (repeat_job.stages words.now) result.status
        (S.files shelf.old) (S.files shelf.new) (S.counts shelf.old) (S.counts shelf.new) }
{
    transmit::<Repetition, S>(alloc, words, shelf)
}
