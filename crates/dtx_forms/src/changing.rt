// `.. IN OUT` where each unit of the input is changed in place.
ghost use Rattle.std.specs.Prelude.{[]};
ghost use Rattle.dtx_engine.specs.Recipe.{each_making, IsAnswerOf};
ghost use Rattle.dtx_words.specs.declared.rows.Command.{Command};
ghost use Rattle.dtx_forms.specs.Answers.{IsKnown};

use crate::transforming::Transforming;
use dtx_engine::{Change, EachUnit};
use std::alloc::{AllocError, Global};

/// What a command of one input does to each unit.
pub trait Changing: Change + Drop {
    ghost use Rattle.dtx_meaning.specs.declared.status.Outcome.{Outcome};

    /// The command that it carries out.
    ghost command: { Command };

    /// A value that has counted nothing.
    fn new() -> Self
        ensures { Self.tallies result [] };

    /// Each answer that can come is one that the command may give.
    ghost knows: { (outcome : Outcome)
        → IsAnswerOf (each_making Self.shape Self.allowed Self.changed Self.answer) outcome → IsKnown command outcome };
}

impl<C: Changing> Transforming for EachUnit<C> {
    ghost command = { C.command };

    ghost makes = { each_making C.shape C.allowed C.changed C.answer };

    fn new(_alloc: Global) -> Result<EachUnit<C>, AllocError> {
        Ok(EachUnit::new(C::new()))
    }

    ghost knows = { C.knows };
}
