// `dvb read IN OUT`: the packets of a stream that was sent by the outer coding of DVB.
ghost use Rattle.dtx_forms.specs.Stages.{IsStaged};
ghost use Rattle.dtx_forms.specs.Job.{IsJobPerformed};
ghost use Rattle.dtx_recipes.specs.DvbRead.{dvb_read_job};

use crate::dvb_reading::DvbReading;
use dtx_forms::transform_dvb;
use dtx_meaning::Outcome;
use dtx_outside::{Shelf, Word};
use dtx_steps::Steps;
use std::alloc::Global;

/// Writes the packets of IN to OUT (EN 300 429, the way back). IN has the bytes that the outer coding of DVB sent. Its
/// first byte must begin a block that begins a group of eight. The interleaver delays packets by eleven blocks, so OUT
/// has a packet for each whole block of 204 bytes but the last eleven. A packet whose word has no correction is written
/// as it was received, with the error indicator set. The numbers are the blocks, the packets, the bytes put right, the
/// packets flagged, and the bytes behind the last whole block.
pub fn dvb_read<S: Shelf>(alloc: Global, words: &[Word], shelf: &mut S) -> Outcome
    ensures performed { IsJobPerformed dvb_read_job words.now result (S.files shelf.old) (S.files shelf.new)
        (S.counts shelf.old) (S.counts shelf.new) }
    ensures stages { IsStaged S.foreseen (dvb_read_job.stages words.now) result.status
        (S.files shelf.old) (S.files shelf.new) (S.counts shelf.old) (S.counts shelf.new) }
{
    transform_dvb::<Steps<DvbReading>, S>(alloc, words, shelf)
}
