// `.. IN OUT` where the input is taken a step at a time.
ghost use Rattle.std.specs.Prelude.{◌≡◌, [], IfOk};
ghost use Rattle.dtx_engine.specs.Recipe.{IsAnswerOf, Recipe};
ghost use Rattle.dtx_words.specs.declared.rows.Command.{Command};
ghost use Rattle.dtx_forms.specs.Answers.{IsKnown};

use crate::transforming::Transforming;
use dtx_steps::{Step, Steps};
use std::alloc::{AllocError, Global};

/// What a command of one input does at each step.
pub trait Stepping: Step + Drop {
    ghost use Rattle.dtx_meaning.specs.declared.status.Outcome.{Outcome};

    /// The command that it carries out.
    ghost command: { Command };

    /// Its recipe.
    ghost makes: { Recipe };

    /// A value that was given nothing. The only error is out of memory.
    fn new(alloc: Global) -> Result<Self, AllocError>
        ensures given { IfOk result (λ step. Self.stands step []) }
        ensures makes { IfOk result (λ step. Self.recipe step ≡ makes) };

    /// Each answer that can come is one that the command may give.
    ghost knows: { (outcome : Outcome) → IsAnswerOf makes outcome → IsKnown command outcome };
}

impl<S: Stepping> Transforming for Steps<S> {
    ghost command = { S.command };

    ghost makes = { S.makes };

    fn new(alloc: Global) -> Result<Steps<S>, AllocError> {
        Ok(Steps::new(S::new(alloc)?))
    }

    ghost knows = { S.knows };
}
