// The engine of `hurt`: lays damage over the bytes of a file, one piece at a time.
ghost use Rattle.std.specs.Prelude.{◌≡◌, []};
ghost use Rattle.dtx_plan.specs.Sound.{AreDamages};
ghost use Rattle.dtx_recipes.specs.Hurt.{hurting};

use crate::past_end::first_past;
use dtx_engine::{Engine, Shape};
use dtx_forms::single_bytes;
use dtx_make::laws::{counted_in_pieces, laid_in_pieces};
use dtx_make::{damaged_in, lay};
use dtx_meaning::{Outcome, Status, done, ended};
use dtx_plan::Damages;

/// Lays damage over the bytes of a file, in place.
#[derive(Drop)]
pub struct Laying<'a> {
    damage: &'a Damages,
    /// The number of bytes given so far.
    count: u64,
    /// The number of these bytes that some entry covers.
    damaged: u64,
}

impl<'a> Laying<'a> {
    /// An engine for this damage, to which nothing was given.
    pub fn new(damage: &'a Damages) -> Laying<'a>
        requires { AreDamages damage.now }
        ensures fresh { ⟦<Laying<'a> as Engine>⟧.stands result [] }
        ensures recipe { ⟦<Laying<'a> as Engine>⟧.recipe result ≡ hurting damage.now }
    {
        counted_in_pieces();
        Laying {
            damage,
            count: 0,
            damaged: 0,
        }
    }
}

impl Engine for Laying<'_> {
    ghost use Rattle.dtx_engine.specs.Made.{only};
    ghost use Rattle.dtx_recipes.specs.Hurt.{hurting};
    ghost use Rattle.dtx_packet_jobs.specs.Laying.{HasLaid};
    ghost use Rattle.dtx_recipes.proofs.HurtLemmas.{hurting_starts, hurting_grows};
    ghost use Rattle.dtx_forms.specs.Shapes as shapes;

    ghost shape = { shapes.single_bytes };

    ghost recipe = { λ s. hurting s.damage.now };

    ghost stands = { HasLaid };

    ghost gives = { λ _ bytes. only bytes };

    ghost zeros = { λ _. 0 };

    fn sizes(&self) -> Shape {
        single_bytes()
    }

    fn allows(&self, _index: u64, _unit: &[u8]) -> bool {
        true
    }

    fn feed(&mut self, first: u64, bytes: &mut [u8]) {
        laid_in_pieces();
        counted_in_pieces();
        let more = bytes.len() as u64;
        lay(self.damage, first, bytes);
        self.damaged += damaged_in(self.damage, first, more);
        self.count = first + more;
    }

    fn finish(&mut self, _loose: usize) -> Outcome {
        match first_past(self.damage, self.count) {
            Some(entry) => ended(Status::OutOfAir(entry)),
            None => done(&[self.count, self.damaged]),
        }
    }

    fn zeros(&self) -> u64 {
        0
    }

    fn made<'a>(&'a self, bytes: &'a [u8]) -> &'a [u8] {
        bytes
    }

    fn log(&self) -> &[u8] {
        &[]
    }

    ghost starts = { λ s. hurting_starts s.damage.now };

    ghost grows = { λ s a b whole. hurting_grows s.damage.now a b };
}
