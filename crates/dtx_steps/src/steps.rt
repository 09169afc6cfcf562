// The engine of what takes its input a step at a time.
ghost use Rattle.std.specs.Prelude.{◌≡◌, ◌*◌, ◌+◌, ◌/◌, ◌%◌, ◌≤◌, ℕ, List, [], length};
ghost use Rattle.dtx_engine.specs.Made.{only};
ghost use Rattle.dtx_engine.specs.Recipe.{AreSomeGiven, IsFed, IsSound};

use crate::Step;
use dtx_engine::{Engine, Shape};
use dtx_meaning::Outcome;

/// The engine of what takes its input a step at a time.
#[derive(Drop)]
pub struct Steps<S> {
    step: S,
}

impl<S: Step> Steps<S> {
    /// The engine of a value that was given nothing.
    pub fn new(step: S) -> Steps<S>
        requires { S.stands step [] }
        ensures given { ⟦<Steps<S> as Engine>⟧.stands result [] }
        ensures recipe { ⟦<Steps<S> as Engine>⟧.recipe result ≡ S.recipe step }
    {
        Steps { step }
    }
}

impl<S: Step> Engine for Steps<S> {
    ghost shape = { S.shape };

    ghost recipe = { λ s. S.recipe s.step };

    ghost stands = { λ s given. S.stands s.step given };

    ghost gives = { λ s _. S.holds s.step };

    ghost zeros = { λ _. 0 };

    fn sizes(&self) -> Shape {
        self.step.sizes()
    }

    fn allows(&self, index: u64, unit: &[u8]) -> bool {
        self.step.allows(index, unit)
    }

    fn feed(&mut self, first: u64, bytes: &mut [u8]) {
        let shape = self.step.sizes();
        self.step.clear();
        step_all(shape, &mut self.step, first, bytes);
    }

    fn finish(&mut self, loose: usize) -> Outcome {
        self.step.clear();
        self.step.finish(loose)
    }

    fn zeros(&self) -> u64 {
        0
    }

    fn made<'a>(&'a self, _bytes: &'a [u8]) -> &'a [u8] {
        self.step.made()
    }

    fn log(&self) -> &[u8] {
        self.step.log()
    }

    ghost starts = { λ s. S.starts s.step };

    ghost grows = { λ s a b whole. S.grows s.step a b whole };
}

/// Takes the units of a piece. The first of them has the number `first`.
fn step_all<S: Step>(shape: Shape, step: &mut S, first: u64, bytes: &mut [u8])
    requires sound { IsSound shape }
    requires shape { shape ≡ S.shape }
    requires given { AreSomeGiven (shape.unit * first) (S.stands step.old) }
    requires whole { length bytes.old % shape.unit ≡ 0 }
    requires most { shape.unit * first + length bytes.old ≤ shape.unit * shape.limit }
    requires empty { S.holds step.old ≡ only [] }
    requires ready { S.is_ready step.old first (length bytes.old / shape.unit) }
    ensures kept { S.recipe step.new ≡ S.recipe step.old }
    ensures fed { (given : List ℕ) → length given ≡ shape.unit * first → S.stands step.old given
        → IsFed (S.recipe step.old) given bytes.old (S.stands step.new) (S.holds step.new) }
{
    let units = bytes.len() / shape.unit;
    let mut done = 0;
    while done < units {
        done += step.step(first + done as u64, &mut bytes[shape.unit * done..]);
    }
}
