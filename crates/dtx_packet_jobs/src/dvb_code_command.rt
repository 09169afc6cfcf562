// `dvb code IN OUT`: a stream by the outer coding of DVB.
ghost use Rattle.dtx_forms.specs.Stages.{IsStaged};
ghost use Rattle.dtx_forms.specs.Job.{IsJobPerformed};
ghost use Rattle.dtx_recipes.specs.DvbCode.{dvb_code_job};

use crate::dvb_coding::DvbCoding;
use dtx_forms::transform_dvb;
use dtx_meaning::Outcome;
use dtx_outside::{Shelf, Word};
use dtx_steps::Steps;
use std::alloc::Global;

/// Writes the stream IN to OUT as the outer coding of DVB sends it (EN 300 429). Each packet passes the randomizer,
/// which inverts every eighth sync byte, the Reed-Solomon code and the interleaver, and gives 204 bytes. Byte 0 of each
/// packet of IN must be 0x47. The numbers are the packets, and the bytes behind the last whole packet.
pub fn dvb_code<S: Shelf>(alloc: Global, words: &[Word], shelf: &mut S) -> Outcome
    ensures performed { IsJobPerformed dvb_code_job words.now result (S.files shelf.old) (S.files shelf.new)
        (S.counts shelf.old) (S.counts shelf.new) }
    ensures stages { IsStaged S.foreseen (dvb_code_job.stages words.now) result.status
        (S.files shelf.old) (S.files shelf.new) (S.counts shelf.old) (S.counts shelf.new) }
{
    transform_dvb::<Steps<DvbCoding>, S>(alloc, words, shelf)
}
