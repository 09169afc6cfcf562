// Reading the array `event`.
ghost use Rattle.std.specs.Prelude.{◌≡◌};
ghost use Rattle.toml.specs.View.{view, table_view};
ghost use Rattle.dtx_plan.specs.Rows.{IsAnswer};
ghost use Rattle.dtx_plan.specs.NetTable.{events_of};
ghost use Rattle.dtx_plan.specs.EventTable as spec;

use crate::event::{Event, EventKind, Events};
use crate::key::PlanKey;
use crate::limits::{LAST_BYTE, LAST_PACKET, LAST_SEED, MOST_EVENTS};
use crate::refusal::{PlanFault, PlanNo};
use crate::rows::{Row, known, table};
use crate::rule::PlanRule;
use crate::transmitters::Transmitters;
use dtx_sizes::MOST_PACKETS;
use dtx_trellis::States;
use std::alloc::Global;
use toml::{Table, Value};

/// Reads the array `event` of a table, entry by entry. There are no events where the key is absent.
pub(crate) fn events(
    alloc: Global,
    transmitters: &Transmitters,
    net: &Table,
) -> Result<Events, PlanFault>
    ensures { IsAnswer (events_of transmitters.now (table_view net.now)) result }
{
    let values = Row::new(net, "event", PlanKey::Event, 0).array_or_none(MOST_EVENTS)?;
    let mut all = Vec::new(alloc);
    for value in values {
        let next = event(transmitters, all.len() as u32, value)?;
        all.push(next)?;
    }
    Ok(Events { all })
}

/// Reads entry number `item`.
#[tactic(auto, unfolding(crate::specs::EventTable::event_at))]
fn event(transmitters: &Transmitters, item: u32, value: &Value) -> Result<Event, PlanNo>
    ensures { result ≡ spec.event_at transmitters.now item (view value.now) }
{
    let entry = table(value, PlanKey::Event, item)?;
    let kind = kind(entry, item)?;
    known_keys(kind, entry, item)?;
    let to = Row::new(entry, "to", PlanKey::To, item).whole(0, 65535)? as u16;
    if !transmitters.has(to) {
        return Err(PlanNo::new(PlanKey::To, item, PlanRule::Stranger));
    }
    event_of(kind, to, entry, item)
}

/// Reads `do`, which says what the event does.
fn kind(entry: &Table, item: u32) -> Result<EventKind, PlanNo>
    ensures { result ≡ spec.kind (table_view entry.now) item }
{
    let word = Row::new(entry, "do", PlanKey::Do, item).text()?;
    match word {
        "send" => Ok(EventKind::Send),
        "foreign" => Ok(EventKind::Foreign),
        "flip" => Ok(EventKind::Flip),
        "lie" => Ok(EventKind::Lie),
        "restart" => Ok(EventKind::Restart),
        _ => Err(PlanNo::new(PlanKey::Do, item, PlanRule::Range)),
    }
}

/// Checks that each key of the entry is `do`, `to` or one of its kind.
fn known_keys(kind: EventKind, entry: &Table, item: u32) -> Result<(), PlanNo>
    ensures { result ≡ spec.known_keys kind (table_view entry.now) item }
{
    match kind {
        EventKind::Send => known(entry, &["do", "to", "from", "count"], PlanKey::Event, item),
        EventKind::Foreign => known(
            entry,
            &["do", "to", "seed", "from", "count"],
            PlanKey::Event,
            item,
        ),
        EventKind::Flip => known(
            entry,
            &["do", "to", "from", "at", "with"],
            PlanKey::Event,
            item,
        ),
        EventKind::Lie => known(entry, &["do", "to", "from", "states"], PlanKey::Event, item),
        EventKind::Restart => known(entry, &["do", "to"], PlanKey::Event, item),
    }
}

/// Reads the keys that depend on the kind.
#[tactic(auto, unfolding(crate::specs::EventTable::event_of))]
fn event_of(kind: EventKind, to: u16, entry: &Table, item: u32) -> Result<Event, PlanNo>
    ensures { result ≡ spec.event_of kind to (table_view entry.now) item }
{
    match kind {
        EventKind::Send => send(to, entry, item),
        EventKind::Foreign => foreign(to, entry, item),
        EventKind::Flip => flip(to, entry, item),
        EventKind::Lie => lie(to, entry, item),
        EventKind::Restart => Ok(Event::Restart { to }),
    }
}

/// Reads the keys of `send`, which gives packets of the feed.
#[tactic(auto, unfolding(crate::specs::EventTable::send))]
fn send(to: u16, entry: &Table, item: u32) -> Result<Event, PlanNo>
    ensures { result ≡ spec.send to (table_view entry.now) item }
{
    let from = Row::new(entry, "from", PlanKey::From, item).whole(0, LAST_PACKET)?;
    let count = Row::new(entry, "count", PlanKey::Count, item).whole(1, MOST_PACKETS - from)?;
    Ok(Event::Send { to, from, count })
}

/// Reads the keys of `foreign`, which gives packets that are not of the feed.
#[tactic(auto, unfolding(crate::specs::EventTable::foreign))]
fn foreign(to: u16, entry: &Table, item: u32) -> Result<Event, PlanNo>
    ensures { result ≡ spec.foreign to (table_view entry.now) item }
{
    let seed = Row::new(entry, "seed", PlanKey::Seed, item).whole(0, LAST_SEED)?;
    let from = Row::new(entry, "from", PlanKey::From, item).whole(0, LAST_PACKET)?;
    let count = Row::new(entry, "count", PlanKey::Count, item).whole(1, MOST_PACKETS - from)?;
    Ok(Event::Foreign {
        to,
        seed,
        from,
        count,
    })
}

/// Reads the keys of `flip`, which gives a packet with one wrong byte.
#[tactic(auto, unfolding(crate::specs::EventTable::flip))]
fn flip(to: u16, entry: &Table, item: u32) -> Result<Event, PlanNo>
    ensures { result ≡ spec.flip to (table_view entry.now) item }
{
    let from = Row::new(entry, "from", PlanKey::From, item).whole(0, LAST_PACKET)?;
    let at = Row::new(entry, "at", PlanKey::At, item).whole(0, LAST_BYTE)? as u8;
    let with = Row::new(entry, "with", PlanKey::With, item).whole(1, 255)? as u8;
    Ok(Event::Flip { to, from, at, with })
}

/// Reads the keys of `lie`, which gives an operations packet with false states.
#[tactic(auto, unfolding(crate::specs::EventTable::lie))]
fn lie(to: u16, entry: &Table, item: u32) -> Result<Event, PlanNo>
    ensures { result ≡ spec.lie to (table_view entry.now) item }
{
    let from = Row::new(entry, "from", PlanKey::From, item).whole(0, LAST_PACKET)?;
    let states = states(entry, item)?;
    Ok(Event::Lie { to, from, states })
}

/// Reads `states`, which are the false states.
fn states(entry: &Table, item: u32) -> Result<States, PlanNo>
    ensures { result ≡ spec.states (table_view entry.now) item }
{
    let digits = Row::new(entry, "states", PlanKey::States, item).text()?;
    states_of(digits.as_bytes(), item)
}

/// The states of the twelve coders, spelled as twelve digits from 0 to 7.
fn states_of(digits: &[u8], item: u32) -> Result<States, PlanNo>
    ensures { result ≡ spec.states_of digits.now item }
{
    if digits.len() != 12 {
        return Err(PlanNo::new(PlanKey::States, item, PlanRule::Range));
    }
    let mut states = [0u8; 12];
    for i in 0..12 {
        let digit = digits[i];
        if digit < b'0' || digit > b'7' {
            return Err(PlanNo::new(PlanKey::States, item, PlanRule::Range));
        }
        states[i] = digit - b'0';
    }
    Ok(States(states))
}
