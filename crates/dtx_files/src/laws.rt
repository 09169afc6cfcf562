//! A law of the definitions: the text of a log determines its lines.

ghost use Rattle.std.specs.Prelude.{◌≡◌, List};
ghost use Rattle.std.specs.List.{AllByRecursion};
ghost use Rattle.dtx_exciter.specs.Log.{Line};
ghost use Rattle.dtx_files.specs.LogText.{HasNumbers, log_text};

/// Two logs with the same text have the same lines, where all numbers of both fit 64 bits. So a claim about a log file
/// is a claim about its lines.
pub fn log_text_tells_its_lines()
    ensures { (lines others : List Line) → AllByRecursion HasNumbers lines → AllByRecursion HasNumbers others
        → log_text lines ≡ log_text others → lines ≡ others }
{}
