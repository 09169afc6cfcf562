//! Laws of the commands' words.

ghost use Rattle.std.specs.Prelude.{◌≡◌, ℕ, List, true, false, Some, None};
ghost use Rattle.dtx_words.specs.Fitting.{command_of, fits};
ghost use Rattle.dtx_words.specs.Rows.{are_inputs_first, row_of};
ghost use Rattle.dtx_words.specs.declared.rows.Command.{Command};

/// The words fit the command that is found. Where none is found, they fit none.
pub fn the_command_is_fitted()
    ensures some { (words : List (List ℕ)) (c : Command) → command_of words ≡ Some c → fits c words ≡ true }
    ensures none { (words : List (List ℕ)) (c : Command) → command_of words ≡ None → fits c words ≡ false }
{}

/// No words fit two commands. So the order of the rows doesn't decide which command is found.
pub fn no_two_commands_fit()
    ensures only { (words : List (List ℕ)) (a b : Command) → fits a words ≡ true → fits b words ≡ true → a ≡ b }
    ensures found { (words : List (List ℕ)) (c : Command) → fits c words ≡ true → command_of words ≡ Some c }
{}

/// In each row the inputs stand before the outputs. So an input has the same number among the file names as among the
/// inputs.
pub fn inputs_come_first()
    ensures { (c : Command) → are_inputs_first (row_of c).fields ≡ true }
{}
