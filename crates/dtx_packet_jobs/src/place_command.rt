// `place IN OUT`: a stream with placeholders in the place of null packets.
ghost use Rattle.dtx_forms.specs.Stages.{IsStaged};
ghost use Rattle.dtx_forms.specs.Job.{IsJobPerformed};
ghost use Rattle.dtx_recipes.specs.Place.{place_job};

use crate::placing::Placing;
use dtx_engine::EachUnit;
use dtx_forms::transform;
use dtx_meaning::Outcome;
use dtx_outside::{Shelf, Word};
use std::alloc::Global;

/// Writes the packets of IN to OUT, with null packets turned into placeholders that an adapter can fill (the profile's
/// own). In each field of 312 packets the first null packet at place 52 or behind becomes a placeholder, unless a
/// placeholder stands before it at place 52 or behind. All other packets stay. The numbers are the packets, those that
/// became placeholders, the fields left without a placeholder at place 52 or behind, and the bytes behind the last
/// whole packet.
pub fn place<S: Shelf>(alloc: Global, words: &[Word], shelf: &mut S) -> Outcome
    ensures performed { IsJobPerformed place_job words.now result (S.files shelf.old) (S.files shelf.new)
        (S.counts shelf.old) (S.counts shelf.new) }
    ensures stages { IsStaged S.foreseen (place_job.stages words.now) result.status
        (S.files shelf.old) (S.files shelf.new) (S.counts shelf.old) (S.counts shelf.new) }
{
    transform::<EachUnit<Placing>, S>(alloc, words, shelf)
}
