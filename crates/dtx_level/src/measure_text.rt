//! The text of a measured field sync.

ghost use Rattle.std.specs.Prelude.{◌≡◌, ◌+◌, ◌≤◌, ◌++◌, codes, decimal, length};
ghost use Rattle.std.specs.Fmt.{signed_decimal};
ghost use Rattle.dtx_level.specs.Measures.{field_number, measure_text};

use crate::Measure;
use arrayvec::ArrayString;
use itoa::Buffer;

/// Room for a line, in bytes. A line is `sync`, five numbers of 64 bits with a space before each, and a line feed.
pub const MEASURE_LINE: usize = 110;

/// Sets the text to the line of a sync (the profile's own).
pub fn write_measure(measure: &Measure, text: &mut ArrayString<MEASURE_LINE>)
    ensures { text.new.bytes ≡ measure_text measure.now }
{
    text.clear();
    text.push_str("sync");
    push_number(measure.place, text);
    push_number(field_number(measure.second), text);
    push_signed(measure.gain, text);
    push_signed(measure.constant, text);
    push_number(measure.noise, text);
    text.push_str("\n");
}

/// Appends a space and a number to the text.
fn push_number(number: u64, text: &mut ArrayString<MEASURE_LINE>)
    requires { length text.old.bytes + 21 ≤ MEASURE_LINE }
    ensures text { text.new.bytes ≡ text.old.bytes ++ (codes " " ++ decimal number) }
    ensures long { length text.new.bytes ≤ length text.old.bytes + 21 }
{
    let mut digits = Buffer::new();
    text.push_str(" ");
    text.push_str(digits.format(number));
}

/// Appends a space and a number to the text, with a minus sign where the number is below 0.
fn push_signed(number: i64, text: &mut ArrayString<MEASURE_LINE>)
    requires { length text.old.bytes + 21 ≤ MEASURE_LINE }
    ensures text { text.new.bytes ≡ text.old.bytes ++ (codes " " ++ signed_decimal number) }
    ensures long { length text.new.bytes ≤ length text.old.bytes + 21 }
{
    let mut digits = Buffer::new();
    text.push_str(" ");
    text.push_str(digits.format(number));
}

/// The number of a field in the line.
fn field_number(second: bool) -> u64
    ensures { result ≡ field_number second }
{
    if second { 2 } else { 1 }
}
