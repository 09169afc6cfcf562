// The text of the notes on a feed.
ghost use Rattle.std.specs.Prelude.{◌≡◌, ◌+◌, ◌*◌, ◌≤◌, ◌++◌, length, codes, decimal};
ghost use Rattle.dtx_watch.specs.WatchText.{rule_number, states_word, clock_word, numbers_text};
ghost use Rattle.dtx_watch.specs.WatchText.{note_head, note_end, note_text};
ghost use Rattle.dtx_watch.specs.declared.notes.NoteKind.TheVariants.{Ops};

use crate::notes::{ClockNote, Note, NoteKind, OpsNote, StatesNote};
use arrayvec::ArrayString;
use dtx_ops::OpsNo;
use itoa::Buffer;

/// How many bytes a line has room for. A line is a word of 8 letters at most, six numbers of 64 bits with a space
/// before each, two words of 5 letters with a space before each, and a line feed.
pub const WATCH_LINE: usize = 148;

/// Sets the text to the line of a note (the profile's own).
#[tactic(auto, unfolding(crate::specs::WatchText::note_text))]
pub fn write_note(note: &Note, text: &mut ArrayString<WATCH_LINE>)
    ensures { text.new.bytes ≡ note_text note.now }
{
    write_front(note.packet, note.what, text);
    push_end(note.what, text);
}

/// Sets the text to the word and the numbers of a note.
fn write_front(packet: u64, what: NoteKind, text: &mut ArrayString<WATCH_LINE>)
    ensures text { text.new.bytes ≡ note_head packet what }
    ensures short { length text.new.bytes ≤ 134 }
{
    match what {
        NoteKind::Lock => write_head("lock", &[packet], text),
        NoteKind::Lost => write_head("lost", &[packet], text),
        NoteKind::Unread(refusal) => write_head("unread", &[packet, rule_number(refusal)], text),
        NoteKind::Stray { frame, index } => {
            write_head("stray", &[packet, frame as u64, index as u64], text);
        }
        NoteKind::Ops(ops) => write_ops(packet, &ops, text),
    }
}

/// Sets the text to the word and the numbers of an operations packet at its place.
fn write_ops(packet: u64, ops: &OpsNote, text: &mut ArrayString<WATCH_LINE>)
    ensures text { text.new.bytes ≡ note_head packet (Ops ops.now) }
    ensures short { length text.new.bytes ≤ 134 }
{
    let numbers = [
        packet,
        ops.frame as u64,
        ops.index as u64,
        ops.stamp as u64,
        ops.max_delay as u64,
        ops.listed as u64,
    ];
    write_head("ops", &numbers, text);
}

/// Sets the text to a word and numbers.
fn write_head(word: &str, numbers: &[u64], text: &mut ArrayString<WATCH_LINE>)
    requires word { length word.now ≤ 8 }
    requires numbers { length numbers.now ≤ 6 }
    ensures text { text.new.bytes ≡ word.now ++ numbers_text numbers.now }
    ensures short { length text.new.bytes ≤ 134 }
{
    text.clear();
    text.push_str(word);
    push_numbers(numbers, text);
}

/// Appends numbers to the text, each behind a space.
fn push_numbers(numbers: &[u64], text: &mut ArrayString<WATCH_LINE>)
    requires { length text.old.bytes + 21 * length numbers.now ≤ WATCH_LINE }
    ensures text { text.new.bytes ≡ text.old.bytes ++ numbers_text numbers.now }
    ensures long { length text.new.bytes ≤ length text.old.bytes + 21 * length numbers.now }
{
    for number in numbers {
        push_number(*number, text);
    }
}

/// Appends a space and a number to the text.
fn push_number(number: u64, text: &mut ArrayString<WATCH_LINE>)
    requires { length text.old.bytes + 21 ≤ WATCH_LINE }
    ensures text { text.new.bytes ≡ text.old.bytes ++ (codes " " ++ decimal number) }
    ensures long { length text.new.bytes ≤ length text.old.bytes + 21 }
{
    let mut digits = Buffer::new();
    text.push_str(" ");
    text.push_str(digits.format(number));
}

/// Appends the words that follow a line's numbers, if any, and a line feed to the text.
fn push_end(what: NoteKind, text: &mut ArrayString<WATCH_LINE>)
    requires { length text.old.bytes ≤ 134 }
    ensures { text.new.bytes ≡ text.old.bytes ++ note_end what }
{
    match what {
        NoteKind::Ops(ops) => push_words(ops.states, ops.clock, text),
        _ => text.push_str("\n"),
    }
}

/// Appends the words for states and a stamp to the text, each behind a space, and then a line feed.
fn push_words(states: StatesNote, clock: ClockNote, text: &mut ArrayString<WATCH_LINE>)
    requires { length text.old.bytes ≤ 134 }
    ensures { text.new.bytes ≡ text.old.bytes
        ++ (codes " " ++ (states_word states ++ (codes " " ++ (clock_word clock ++ codes "\n")))) }
{
    text.push_str(" ");
    text.push_str(states_word(states));
    text.push_str(" ");
    text.push_str(clock_word(clock));
    text.push_str("\n");
}

/// The word for a note on states.
fn states_word(states: StatesNote) -> &'static str
    ensures word { result.now ≡ states_word states }
    ensures short { length result.now ≤ 5 }
{
    match states {
        StatesNote::Early => "early",
        StatesNote::First => "first",
        StatesNote::Right => "right",
        StatesNote::Slip => "slip",
    }
}

/// The word for a note on a stamp.
fn clock_word(clock: ClockNote) -> &'static str
    ensures word { result.now ≡ clock_word clock }
    ensures short { length result.now ≤ 5 }
{
    match clock {
        ClockNote::First => "first",
        ClockNote::Right => "right",
        ClockNote::Jump => "jump",
    }
}

/// The number of the rule that refuses a packet.
fn rule_number(refusal: OpsNo) -> u64
    ensures { result ≡ rule_number refusal }
{
    match refusal {
        OpsNo::NotOps => 1,
        OpsNo::Uncorrectable => 2,
        OpsNo::Kind => 3,
        OpsNo::Pad => 4,
        OpsNo::Stamp => 5,
        OpsNo::Delay => 6,
        OpsNo::Index => 7,
        OpsNo::Count => 8,
        OpsNo::Twice => 9,
        OpsNo::Fill => 10,
        OpsNo::Page => 11,
    }
}
