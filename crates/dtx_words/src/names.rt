// The file names of a command: which one is repeated, and which one the printed line has.
ghost use Rattle.std.specs.Prelude.{◌≡◌, ◌≤◌, length, map};
ghost use Rattle.std.specs.Option.{option_map};
ghost use Rattle.dtx_words.specs.Names.{line_name, is_file, names_at, names_of, repeated};

use crate::rows::row;
use crate::{Command, Field};
use arrayvec::ArrayVec;
use dtx_meaning::Status;
use dtx_outside::Word;

/// How many fields a command has at most.
const MOST_FIELDS: usize = 5;

/// The first name that equals an earlier one.
pub fn repeated_name<'a>(names: &[&'a str]) -> Option<&'a str>
    ensures { option_map (λ name. name.now) result ≡ repeated (map (λ name. name.now) names.now) }
{
    for (i, name) in names.iter().enumerate() {
        if names[..i].contains(name) {
            return Some(name);
        }
    }
    None
}

/// The name that the line of a status has, which is one of these names, or empty.
pub fn name_among<'a>(status: Status, names: &[&'a str]) -> &'a str
    ensures { result.now ≡ line_name status (map (λ name. name.now) names.now) }
{
    match status {
        Status::Same => repeated_name(names).unwrap_or(""),
        Status::Absent(input) => names.get(input as usize).copied().unwrap_or(""),
        _ => "",
    }
}

/// The file name that the line of a status has. For `Same` that is the repeated one, and for `Absent` the input that
/// isn't there. It is empty where the line has no name.
pub fn name_in_line<'a>(command: Option<Command>, words: &'a [Word], status: Status) -> &'a str
    ensures { result.now ≡ line_name status (names_of command words.now) }
{
    match (command, words) {
        (Some(command), [_, arguments @ ..]) => {
            name_among(status, &names_at(row(command).fields, arguments))
        }
        _ => name_among(status, &[]),
    }
}

/// The words that are file names, in their order.
fn names_at<'a>(fields: &[Field], words: &'a [Word]) -> ArrayVec<&'a str, MOST_FIELDS>
    requires { length fields.now ≤ 5 }
    ensures { map (λ name. name.now) result.items ≡ names_at fields.now words.now }
{
    let mut names = ArrayVec::new();
    for i in 0..fields.len().min(words.len()) {
        if is_file(fields[i]) {
            names.push(words[i].as_str());
        }
    }
    names
}

/// Whether the field is a file name.
fn is_file(field: Field) -> bool
    ensures { result ≡ is_file field }
{
    match field {
        Field::Input | Field::Output => true,
        Field::Number(_) | Field::Within(_, _) | Field::Second(_) => false,
    }
}
