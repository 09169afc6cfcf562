// The note on one packet.
ghost use Rattle.std.specs.Prelude.{◌≡◌, ◌<◌, ◌==◌, ◌&&◌, ◌||◌, ◌++◌, None, IfOk, is_some, length, not, if◌then◌else◌};
ghost use Rattle.dtx_ops.specs.Spelling.{IsValid};
ghost use Rattle.dtx_exciter.specs.Order.{either};
ghost use Rattle.dtx_watch.specs.Notes.{states_note, ops_note, read_note, packet_note, one_or_none};

use crate::notes::{MOST_NOTES, Note, NoteKind, OpsNote, StatesNote};
use crate::stamped::{Stamped, clock_note};
use arrayvec::ArrayVec;
use dtx_ops::{Ops, OpsNo};
use dtx_trellis::States;

/// What the states of a group's operations packets are compared with.
#[derive(Clone, Copy)]
pub(crate) enum Expected {
    /// With none: the group doesn't count.
    Early,
    /// With none: no earlier group under the anchor is an order.
    First,
    /// With those that the coders have before the group.
    These(States),
}

/// The note on packet `number`, from the result of reading it. `place` is the packet's place in its frame, or `None`
/// without an anchor. There is no note on a packet that isn't an operations packet.
pub(crate) fn packet_note(
    number: u64,
    place: Option<u16>,
    expected: &Expected,
    latest: Option<Stamped>,
    reading: &Result<Ops, OpsNo>,
) -> Option<Note>
    requires { IfOk reading.now IsValid }
    ensures { result ≡ packet_note number place expected.now latest reading.now }
{
    match reading {
        Ok(ops) => Some(Note {
            packet: number,
            what: read_note(place, expected, latest, ops),
        }),
        Err(OpsNo::NotOps) => None,
        Err(refusal) => Some(Note {
            packet: number,
            what: NoteKind::Unread(*refusal),
        }),
    }
}

/// What the note says of a packet that reads.
fn read_note(
    place: Option<u16>,
    expected: &Expected,
    latest: Option<Stamped>,
    ops: &Ops,
) -> NoteKind
    requires { IsValid ops.now }
    ensures { result ≡ read_note place expected.now latest ops.now }
{
    match place {
        Some(place) if ops.index == place => NoteKind::Ops(ops_note(expected, latest, ops)),
        _ => NoteKind::Stray {
            frame: ops.frame,
            index: ops.index,
        },
    }
}

/// What the note says of a packet that reads and whose index is its place.
fn ops_note(expected: &Expected, latest: Option<Stamped>, ops: &Ops) -> OpsNote
    requires { IsValid ops.now }
    ensures { result ≡ ops_note expected.now latest ops.now }
{
    OpsNote {
        frame: ops.frame,
        index: ops.index,
        stamp: ops.stamp,
        max_delay: ops.max_delay,
        listed: ops.offsets.len() as u8,
        states: states_note(expected, ops),
        clock: clock_note(latest, ops),
    }
}

fn states_note(expected: &Expected, ops: &Ops) -> StatesNote
    ensures { result ≡ states_note expected.now ops.now }
{
    match expected {
        Expected::Early => StatesNote::Early,
        Expected::First => StatesNote::First,
        Expected::These(states) => {
            if ops.states.0 == states.0 {
                StatesNote::Right
            } else {
                StatesNote::Slip
            }
        }
    }
}

/// Appends a note, if there is one.
pub(crate) fn push_some(note: Option<Note>, notes: &mut ArrayVec<Note, MOST_NOTES>)
    requires { length notes.old.items < MOST_NOTES }
    ensures { notes.new.items ≡ notes.old.items ++ one_or_none note }
{
    if let Some(note) = note {
        notes.push(note);
    }
}

/// Whether the group that begins at this place of its frame is the first under an anchor.
pub(crate) fn is_first_group(first: u16, flushed: bool) -> bool
    ensures { result ≡ ((first == 0) && not flushed) }
{
    first == 0 && !flushed
}

/// The earlier states, or else the later ones.
pub(crate) fn first_of(earlier: Option<States>, later: Option<States>) -> Option<States>
    ensures { result ≡ either earlier later }
{
    match earlier {
        Some(states) => Some(states),
        None => later,
    }
}

/// The states of a group, if they count. They count if the group begins 52 or more packets behind the anchor.
pub(crate) fn preset_of(flushed: bool, states: Option<States>) -> Option<States>
    ensures { result ≡ (if flushed then states else None) }
{
    if flushed { states } else { None }
}

/// Whether a group under the anchor is an order, including one whose counting states, if any, are `states`. `before` is
/// the same without that group.
pub(crate) fn is_ordered(before: bool, states: &Option<States>) -> bool
    ensures { result ≡ (before || is_some states.now) }
{
    match states {
        Some(_) => true,
        None => before,
    }
}
