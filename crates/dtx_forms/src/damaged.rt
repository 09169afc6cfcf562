// Damage that is laid over an input as it is read.
ghost use Rattle.std.specs.Prelude.{◌≡◌, []};
ghost use Rattle.dtx_make.specs.Hurt.{AreInOrder};
ghost use Rattle.dtx_forms.specs.Damaged.{damaged_making};

use dtx_engine::{Engine, Shape};
use dtx_make::lay;
use dtx_meaning::Outcome;
use dtx_plan::Damages;

/// An engine that is given damaged bytes: the damage is laid over each piece first.
#[derive(Drop)]
pub struct DamagedInput<'a, E> {
    damage: &'a Damages,
    engine: E,
}

impl<'a, E: Engine> DamagedInput<'a, E> {
    /// Puts an engine that was given nothing under this damage.
    #[tactic(auto, using(dtx_make::proofs::LaidLemmas::hurt_none))]
    pub fn new(damage: &'a Damages, engine: E) -> DamagedInput<'a, E>
        requires in_order { AreInOrder damage.now }
        requires fresh { E.stands engine [] }
        ensures fresh { ⟦<DamagedInput<'a, E> as Engine>⟧.stands result [] }
        ensures recipe { ⟦<DamagedInput<'a, E> as Engine>⟧.recipe result ≡ damaged_making damage.now (E.recipe engine) }
    {
        DamagedInput { damage, engine }
    }
}

impl<E: Engine> Engine for DamagedInput<'_, E> {
    ghost use Rattle.std.proofs.Common.{List, ℕ, ◌%◌, length, sym, ap, subst, ◌∙◌};
    ghost use Rattle.dtx_make.specs.Hurt.{AreInOrder, damaged_bytes, hurt};
    ghost use Rattle.dtx_make.proofs.LaidLemmas.{hurt-append, hurt_none, length-hurt};
    ghost use Rattle.dtx_engine.specs.Made.{AreFrontsOf};

    ghost shape = { E.shape };

    ghost recipe = { λ s. damaged_making s.damage.now (E.recipe s.engine) };

    ghost stands = { λ s given. AreInOrder s.damage.now × E.stands s.engine (hurt s.damage.now given) };

    ghost gives = { λ s bytes. E.gives s.engine bytes };

    ghost zeros = { λ s. E.zeros s.engine };

    fn sizes(&self) -> Shape {
        self.engine.sizes()
    }

    fn allows(&self, _index: u64, _unit: &[u8]) -> bool {
        true
    }

    fn feed(&mut self, first: u64, bytes: &mut [u8]) {
        let shape = self.engine.sizes();
        lay(self.damage, shape.unit as u64 * first, bytes);
        self.engine.feed(first, bytes);
    }

    fn finish(&mut self, loose: usize) -> Outcome {
        self.engine.finish(loose)
    }

    fn zeros(&self) -> u64 {
        self.engine.zeros()
    }

    fn made<'a>(&'a self, bytes: &'a [u8]) -> &'a [u8] {
        self.engine.made(bytes)
    }

    fn log(&self) -> &[u8] {
        self.engine.log()
    }

    ghost starts = { λ s. ap (E.recipe s.engine).made (hurt_none s.damage.now) ∙ E.starts s.engine };

    ghost grows = { λ s a b whole. subst (λ (z : List ℕ). AreFrontsOf ((E.recipe s.engine).made (hurt s.damage.now a))
        ((E.recipe s.engine).made z)) (sym (hurt-append s.damage.now a b))
        (E.grows s.engine (hurt s.damage.now a) (damaged_bytes s.damage.now (length a) b)
        (ap (λ n. n % E.shape.unit) (length-hurt s.damage.now a) ∙ whole)) };
}
