// The events of a plan.
ghost use Rattle.std.specs.Prelude.{◌≡◌, ◌<◌, length, slice_get, IfOk, Some};

use dtx_trellis::States;
use std::alloc::{AllocError, Global};
use std::marker::Model;

/// One event of a network's schedule: what is done with the transmitter of address `to`.
#[derive(Clone, Copy, PartialEq, Eq)]
pub enum Event {
    /// It is given `count` packets of the feed, from packet `from` on.
    Send {
        to: u16,
        from: u64,
        count: u64,
    },
    /// It is given `count` packets made from the seed, from packet `from` on.
    Foreign {
        to: u16,
        seed: u64,
        from: u64,
        count: u64,
    },
    /// It is given packet `from` of the feed, with `with` (1 to 255) added to byte `at` (0 to 187) by exclusive or.
    Flip {
        to: u16,
        from: u64,
        at: u8,
        with: u8,
    },
    /// It is given packet `from` of the feed. If that is an operations packet, these states replace its own.
    Lie {
        to: u16,
        from: u64,
        states: States,
    },
    /// Its exciter is restarted.
    Restart {
        to: u16,
    },
}

/// What an event does.
#[derive(Clone, Copy)]
pub(crate) enum EventKind {
    Send,
    Foreign,
    Flip,
    Lie,
    Restart,
}

/// The events of a plan. Contracts see the value as the list of them.
#[derive(Drop)]
pub struct Events {
    pub(crate) all: Vec<Event>,
}

impl Model for Events {
    ghost use Rattle.std.specs.Prelude.{List};
    ghost use Rattle.dtx_plan.specs.declared.event.Event.{Event};

    ghost Value = { List Event };

    ghost view = { λ e. e.all.items };
}

impl Events {
    /// These events, in their order. The only error is out of memory.
    pub fn from_slice(alloc: Global, events: &[Event]) -> Result<Events, AllocError>
        ensures { IfOk result (λ all. all ≡ events.now) }
    {
        let mut all = Vec::new(alloc);
        all.extend_from_slice(events)?;
        Ok(Events { all })
    }

    /// How many events there are.
    pub fn len(&self) -> usize
        ensures { result ≡ length self.now }
    {
        self.all.len()
    }

    /// The event of that number, counted from 0.
    pub fn get(&self, i: usize) -> Event
        requires { i < length self.now }
        ensures { slice_get self.now i ≡ Some result }
    {
        self.all[i]
    }
}
