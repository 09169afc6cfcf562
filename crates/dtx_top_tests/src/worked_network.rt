//! A worked network that meets what the headline asks of transmitters, symbols and damage, with damage and without.
//! What is decided when the test runs gives the facts from which the rest is proved. Where `works` answers `true`, what
//! the headline says of transmitters that join is said of these two, without a premise. Each function answers `true`
//! only where what it asks holds. That the command `net` does these networks is a row of the black box.

ghost use Rattle.std.specs.Prelude.{◌≡◌, ◌≢◌, ◌+◌, ◌≤◌, ◌∷◌, [], IfSome, IsSomeAnd, Some, length, slice_get, true};
ghost use Rattle.dtx_network.specs.Plans.{IsInTime, IsPlan};
ghost use Rattle.dtx_plan.specs.declared.event.Event.TheVariants.{Send};
ghost use Rattle.dtx_top.specs.WorkedNetwork.{IsFew, IsLittle, IsSimple, IsWorked, WorkedNetwork, made_packets};

use dtx_network::laws::plans_that_are_read;
use dtx_plan::{Damages, Event, NetPlan, Plan, ReceivePlan, Transmitter, read_plan};
use dtx_sizes::MOST_ENTRIES;
use dtx_top::laws::{made_packets_are_a_stream, simple_networks_work};
use std::alloc::Global;

/// How many packets the made stream has.
const COUNT: usize = 400;

/// Two transmitters are given the whole feed, and the first one is received.
const WITHOUT_DAMAGE: &[u8] = b"start = 0
max_delay = 5000000
[[transmitter]]
address = 7
offset = -10
delay = 1000
[[transmitter]]
address = 9
offset = 15
[net]
stream = \"made.ts\"
[[net.event]]
do = \"send\"
to = 7
from = 0
count = 400
[[net.event]]
do = \"send\"
to = 9
from = 0
count = 400
[net.receive]
from = 7
";

/// The same, with other bytes laid over 20 symbols of the second segment.
const WITH_DAMAGE: &[u8] = b"start = 0
max_delay = 5000000
[[transmitter]]
address = 7
offset = -10
delay = 1000
[[transmitter]]
address = 9
offset = 15
[net]
stream = \"made.ts\"
[[net.event]]
do = \"send\"
to = 7
from = 0
count = 400
[[net.event]]
do = \"send\"
to = 9
from = 0
count = 400
[net.receive]
from = 7
[[net.receive.damage]]
at = 1000
count = 20
put = 127
";

/// Whether the plan of this text is that of a simple network, over the made stream of seed 1 with so many packets,
/// whose damage has that many entries.
fn works(alloc: Global, text: &[u8], count: usize, entries: usize) -> bool
    ensures { result ≡ true → IsWorked text.now (made_packets 1 count) 100 entries }
{
    plans_that_are_read();
    match read_plan(alloc, text) {
        Ok(plan) => plan_works(&plan, count, entries),
        Err(_) => false,
    }
}

/// Whether the plan is that of a simple network.
fn plan_works(plan: &Plan, count: usize, entries: usize) -> bool
    requires { IsPlan plan.now }
    ensures { result ≡ true
        → IsSomeAnd plan.now.net (λ network. WorkedNetwork plan.now network (made_packets 1 count) 100 entries) }
{
    match &plan.net {
        Some(network) => network_works(plan, network, count, entries),
        None => false,
    }
}

/// Whether the network is a simple one.
fn network_works(plan: &Plan, network: &NetPlan, count: usize, entries: usize) -> bool
    requires { IsPlan plan.now }
    ensures { result ≡ true → WorkedNetwork plan.now network.now (made_packets 1 count) 100 entries }
{
    made_packets_are_a_stream();
    simple_networks_work();
    match simple(plan, network, count, entries) {
        Some(_) => true,
        None => false,
    }
}

/// The first two transmitters, where the network is a simple one: they stand on the only page.
fn simple(
    plan: &Plan,
    network: &NetPlan,
    count: usize,
    entries: usize,
) -> Option<(Transmitter, Transmitter)>
    ensures simple { IfSome result (λ ts. IsSimple plan.now network.now (made_packets 1 count) ts.0 ts.1 entries) }
    ensures most { IfSome result (λ ts. count ≤ 624000000) }
{
    made_packets_are_a_stream();
    if plan.transmitters.len() > MOST_ENTRIES {
        return None;
    }
    if network.events.len() != 2 || count < 372 || count > 624_000_000 {
        return None;
    }
    let first = given_all(plan, 0, &network.events.get(0), count)?;
    let second = given_all(plan, 1, &network.events.get(1), count)?;
    if first.address == second.address || !receives(network, first.address, entries) {
        return None;
    }
    Some((first, second))
}

/// The transmitter at a place of the plan's list, where it is in time and the event gives it that many packets of the
/// feed from packet 0 on.
fn given_all(plan: &Plan, who: usize, event: &Event, count: usize) -> Option<Transmitter>
    ensures listed { IfSome result (λ t. slice_get plan.now.transmitters who ≡ Some t) }
    ensures in_time { IfSome result (λ t. IsInTime plan.now t) }
    ensures event { IfSome result (λ t. event.now ≡ Send t.address 0 count) }
{
    if who >= plan.transmitters.len() {
        return None;
    }
    let t = plan.transmitters.as_slice()[who];
    let whole = Event::Send {
        to: t.address,
        from: 0,
        count: count as u64,
    };
    if is_in_time(plan, &t) && *event == whole {
        Some(t)
    } else {
        None
    }
}

/// Whether the transmitter is in time.
fn is_in_time(plan: &Plan, t: &Transmitter) -> bool
    ensures { result ≡ true → IsInTime plan.now t.now }
{
    t.delay as i64 <= plan.max_delay as i64 + t.offset as i64
}

/// Whether the transmitter of this address is received, with little damage of that many entries.
fn receives(network: &NetPlan, address: u16, entries: usize) -> bool
    ensures { result ≡ true → IsSomeAnd network.now.receive (IsLittle address entries) }
{
    match &network.receive {
        Some(receiver) => is_little(receiver, address, entries),
        None => false,
    }
}

/// Whether what is received is of that transmitter, with little damage of that many entries.
fn is_little(receiver: &ReceivePlan, address: u16, entries: usize) -> bool
    ensures { result ≡ true → IsLittle address entries receiver.now }
{
    receiver.from == address && receiver.damage.len() == entries && is_few(&receiver.damage)
}

/// Whether there is no entry of damage, or one of at most 31 symbols, which ends in the first 212 segments.
fn is_few(damage: &Damages) -> bool
    ensures { result ≡ true → IsFew damage.now }
{
    if damage.len() == 0 {
        return true;
    }
    let entry = damage.get(0);
    damage.len() == 1 && entry.count <= 31 && entry.at <= 176_384 - entry.count
}

#[test]
fn two_transmitters_meet_every_premise_with_damage_and_without(rt: HostRuntime) {
    for (text, entries) in [(WITHOUT_DAMAGE, 0), (WITH_DAMAGE, 1)] {
        assert!(rt; works(rt.alloc(), text, COUNT, entries));
    }
}
