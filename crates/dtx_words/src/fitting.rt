// The command that the words fit.
ghost use Rattle.std.specs.Prelude.{◌≡◌};
ghost use Rattle.dtx_words.specs.Fitting.{command_of, fits, fit_fields, fits_field};

use crate::number::{number_up_to, number_within};
use crate::rows::{COMMANDS, row};
use crate::{Command, Field};
use dtx_outside::Word;

/// The command that the words fit, or `None` where they fit none.
pub fn command(words: &[Word]) -> Option<Command>
    ensures { result ≡ command_of words.now }
{
    COMMANDS
        .iter()
        .copied()
        .find(|command| fits(*command, words))
}

/// Whether the words fit the command.
fn fits(command: Command, words: &[Word]) -> bool
    ensures { result ≡ fits command words.now }
{
    let row = row(command);
    match words {
        [verb, arguments @ ..] => { verb.as_str() == row.verb && fit_fields(row.fields, arguments) }
        [] => false,
    }
}

/// Whether the words fit the fields.
fn fit_fields(fields: &[Field], words: &[Word]) -> bool
    ensures { result ≡ fit_fields fields.now words.now }
{
    match fields {
        [] => words.is_empty(),
        [field, fields @ ..] => match words {
            [] => false,
            [word, words @ ..] => { fits_field(*field, word.as_str()) && fit_fields(fields, words) }
        },
    }
}

/// Whether the word fits the field.
fn fits_field(field: Field, word: &str) -> bool
    ensures { result ≡ fits_field field word.now }
{
    match field {
        Field::Input | Field::Output => !word.is_empty(),
        Field::Number(most) => number_up_to(most, word).is_some(),
        Field::Within(least, most) => number_within(least, most, word).is_some(),
        Field::Second(second) => word == second.text(),
    }
}
