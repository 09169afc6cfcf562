// The text of a transmitter's log.
ghost use Rattle.std.specs.Prelude.{◌≡◌, ◌+◌, ◌-◌, ◌<◌, ◌≤◌, ◌^◌, ◌++◌, ◌∷◌, [], length};
ghost use Rattle.dtx_exciter.specs.Log.{Line, line_of};
ghost use Rattle.dtx_files.specs.LogText.{joined, log_text, word_of};

use arrayvec::ArrayString;
use dtx_exciter::{Preset, Told, Why};
use itoa::Buffer;

/// Room for a line, in bytes. The longest line has 62: the word `preset`, numbers of 64, 32, 16, 32 and 16 bits with a
/// space before each, and a line feed.
pub const LOG_LINE: usize = 64;

/// Sets the text to the line of an exciter's answer, or to nothing where the answer has no line (the profile's own).
/// The exciter gave `before` segments before the answer, and `given` with it.
pub fn write_line(told: Told, before: u64, given: u8, text: &mut ArrayString<LOG_LINE>)
    requires { before + given < 2 ^ 64 }
    ensures { text.new.bytes ≡ log_text (line_of before given told) }
{
    text.clear();
    match told {
        Told::Quiet | Told::Sent { preset: None } => {}
        Told::Sent {
            preset: Some(preset),
        } => {
            let first = (before + given as u64).saturating_sub(4);
            write_preset(first, &preset, text);
        }
        Told::Muted(why) => write_mute(before, why, text),
    }
}

/// Sets the text to the line of a restart. `segment` segments were sent before it (the profile's own).
pub fn write_restart(segment: u64, text: &mut ArrayString<LOG_LINE>)
    ensures { text.new.bytes ≡ log_text (Line.restart segment ∷ []) }
{
    text.clear();
    let mut number = Buffer::new();
    push_all(text, &["restart ", number.format(segment), "\n"]);
}

/// Sets the text to the line of a preset. The first data segment of the preset's group is segment `segment` of the
/// symbol file.
fn write_preset(segment: u64, preset: &Preset, text: &mut ArrayString<LOG_LINE>)
    requires { text.old.bytes ≡ [] }
    ensures { text.new.bytes ≡ log_text (Line.preset segment preset.now.frame preset.now.packet preset.now.moment.tick
        preset.now.moment.grain ∷ []) }
{
    let (mut first, mut second, mut third) = (Buffer::new(), Buffer::new(), Buffer::new());
    let (mut fourth, mut fifth) = (Buffer::new(), Buffer::new());
    push_all(
        text,
        &[
            "preset ",
            first.format(segment),
            " ",
            second.format(preset.frame),
            " ",
            third.format(preset.packet),
            " ",
            fourth.format(preset.moment.tick),
            " ",
            fifth.format(preset.moment.grain),
            "\n",
        ],
    );
}

/// Sets the text to the line of a mute. `segment` segments were sent before it.
fn write_mute(segment: u64, why: Why, text: &mut ArrayString<LOG_LINE>)
    requires { text.old.bytes ≡ [] }
    ensures { text.new.bytes ≡ log_text (Line.mute segment why ∷ []) }
{
    let mut number = Buffer::new();
    push_all(
        text,
        &["mute ", number.format(segment), " ", word_of(why), "\n"],
    );
}

/// The word for the reason why a group isn't sent.
fn word_of(why: Why) -> &'static str
    ensures word { result.now ≡ word_of why }
    ensures short { length result.now ≤ 8 }
{
    match why {
        Why::Cadence => "cadence",
        Why::Unlisted => "unlisted",
        Why::Late => "late",
    }
}

/// Appends the pieces to the text.
fn push_all(text: &mut ArrayString<LOG_LINE>, pieces: &[&str])
    requires { length text.old.bytes + length (joined pieces.now) ≤ LOG_LINE }
    ensures { text.new.bytes ≡ text.old.bytes ++ joined pieces.now }
{
    for piece in pieces {
        text.push_str(piece);
    }
}
