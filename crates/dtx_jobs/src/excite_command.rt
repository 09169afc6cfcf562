// `excite FEED ADDRESS DELAY OUT LOG`: what an exciter sends for a feed, and its log.
ghost use Rattle.dtx_forms.specs.Job.{IsJobPerformed};
ghost use Rattle.dtx_forms.specs.Stages.{IsStaged};
ghost use Rattle.dtx_recipes.specs.Excite.{excite_job};

use crate::excitation::Excitation;
use dtx_forms::transmit;
use dtx_meaning::Outcome;
use dtx_outside::{Shelf, Word};
use std::alloc::Global;

/// Gives the packets of FEED, which are of any bytes, to one exciter (the profile's own, over ATSC A/53 Part 2 and in
/// the manner of ATSC A/110). It writes the segments that the exciter sends to OUT, one signed byte a symbol in two's
/// complement, and its log to LOG. ADDRESS is that of the transmitter, 0 to 65,535. DELAY is how many ticks of 100 ns
/// the feed takes to it, 0 to 4,294,967,295. Both are decimal digits without sign, and without a leading zero unless
/// the number is `0`. The numbers are the packets, the segments, the presets and the mutes of the log, and the bytes
/// behind the last whole packet.
pub fn excite<S: Shelf>(alloc: Global, words: &[Word], shelf: &mut S) -> Outcome
    ensures performed { IsJobPerformed excite_job words.now result (S.files shelf.old) (S.files shelf.new)
        (S.counts shelf.old) (S.counts shelf.new) }
    ensures stages { IsStaged S.foreseen (excite_job.stages words.now) result.status
        (S.files shelf.old) (S.files shelf.new) (S.counts shelf.old) (S.counts shelf.new) }
{
    transmit::<Excitation, S>(alloc, words, shelf)
}
