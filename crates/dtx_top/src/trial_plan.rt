// The plan of a trial.
ghost use Rattle.std.specs.Prelude.{◌≡◌, IfOk};
ghost use Rattle.dtx_top.specs.Trial.{near, trial_events, trial_network, trial_plan, trial_transmitters};

use dtx_outside::Word;
use dtx_plan::{Damages, Event, Events, NetPlan, Plan, ReceivePlan, Transmitter, Transmitters};
use dtx_words::trial_name;
use std::alloc::{AllocError, Global};

/// The plan of a trial of this seed with a stream of `count` packets (the profile's own). The only error is out of
/// memory.
pub(crate) fn trial_plan(alloc: Global, seed: u64, count: u64) -> Result<Plan, AllocError>
    ensures { IfOk result (λ plan. plan ≡ trial_plan seed count) }
{
    let network = trial_network(alloc, seed, count)?;
    Ok(Plan {
        start: 0,
        max_delay: 5_000_000,
        transmitters: trial_transmitters(alloc)?,
        net: Some(network),
    })
}

/// Its three transmitters.
fn trial_transmitters(alloc: Global) -> Result<Transmitters, AllocError>
    ensures { IfOk result (λ transmitters. transmitters ≡ trial_transmitters) }
{
    Transmitters::from_slice(alloc, &[near(1, 0), near(2, 25), near(3, -10)])
}

/// A transmitter that the feed reaches without delay.
fn near(address: u16, offset: i16) -> Transmitter
    ensures { result ≡ near address offset }
{
    Transmitter {
        address,
        offset,
        delay: 0,
    }
}

/// The table `net` of a trial's plan.
fn trial_network(alloc: Global, seed: u64, count: u64) -> Result<NetPlan, AllocError>
    ensures { IfOk result (λ network. network ≡ trial_network seed count) }
{
    let events = trial_events(alloc, seed, count)?;
    Ok(NetPlan {
        stream: Word::new(String::from_str(alloc, trial_name())?),
        events,
        receive: Some(ReceivePlan {
            from: 3,
            damage: Damages::none(alloc),
        }),
    })
}

/// The schedule: each transmitter is given the whole feed, and the third one 50 packets without a mark before it.
fn trial_events(alloc: Global, seed: u64, count: u64) -> Result<Events, AllocError>
    ensures { IfOk result (λ events. events ≡ trial_events seed count) }
{
    Events::from_slice(
        alloc,
        &[
            Event::Send {
                to: 1,
                from: 0,
                count,
            },
            Event::Send {
                to: 2,
                from: 0,
                count,
            },
            Event::Foreign {
                to: 3,
                seed,
                from: 0,
                count: 50,
            },
            Event::Send {
                to: 3,
                from: 0,
                count,
            },
        ],
    )
}
