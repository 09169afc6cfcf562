// A network whose plan is read: its stream adapted, its events played, its symbols received.
ghost use Rattle.std.specs.Prelude.{◌≡◌, ◌≢◌, [], ◌∷◌, ℕ, List, None, Some, IfSome, length};
ghost use Rattle.std.specs.FinMap as files;
ghost use Rattle.dtx_engine.specs.Recipe.{meaning};
ghost use Rattle.dtx_forms.specs.Shapes as shapes;
ghost use Rattle.dtx_meaning.specs.Meaning.{IsCarriedOut, with_outputs};
ghost use Rattle.dtx_meaning.specs.Status.{blame_of};
ghost use Rattle.dtx_network.specs.Network.{steps_under};
ghost use Rattle.dtx_outside.specs.Counts.{HasGone};
ghost use Rattle.dtx_outside.specs.Shelf.{Files};
ghost use Rattle.dtx_plan.specs.declared.plan.Plan.{Plan};
ghost use Rattle.dtx_plan.specs.Sound.{AreDamages, IsNet, IsSound};
ghost use Rattle.dtx_recipes.specs.Adapt.{feeding};
ghost use Rattle.dtx_schedule.specs.Inside as inside;
ghost use Rattle.dtx_schedule.specs.Playout.{IsPlayout};
ghost use Rattle.dtx_schedule.specs.TransmitterFiles.{played_outputs};
ghost use Rattle.dtx_words.specs.Names.{feed_name};
ghost use Rattle.dtx_top.specs.NetAnswers.{HasCount, IsOfReplay, count_of};
ghost use Rattle.dtx_top.specs.NetMeaning as means;
ghost use Rattle.dtx_top.specs.NetProgress.{HasPlayProgress, HasStreamProgress, HasNumbers, IsFeedWritten, fed_of};

use crate::reception::receive_sent;
use dtx_engine::{Input, carry_to_one};
use dtx_meaning::{Outcome, Status, done, ended};
use dtx_outside::Shelf;
use dtx_packet_jobs::Feeder;
use dtx_plan::{NetPlan, Plan};
use dtx_schedule::{PlayedSchedule, first_past_feed, play};
use dtx_sizes::SEGMENT;
use dtx_words::feed_name;
use std::alloc::Global;

/// How many packets a feed has, and how many of them are placeholders that were filled.
#[derive(Clone, Copy)]
struct Fed {
    packets: u64,
    filled: u64,
}

/// Adapts the stream to the feed, plays the events over it, and receives the symbols, where a receiver is asked for.
pub(crate) fn replay<S: Shelf>(
    alloc: Global,
    plan: &Plan,
    network: &NetPlan,
    shelf: &mut S,
) -> Outcome
    requires sound { IsSound plan.now }
    requires network { IsNet plan.now.transmitters network.now }
    requires differ { network.now.stream ≢ feed_name }
    ensures carried { IfSome (S.files shelf.old) (λ held. IsCarriedOut
        (means.network_meaning plan.now network.now (files.get held network.now.stream)) (Some held) result
        (S.files shelf.new)) }
    ensures progress { IfSome (S.files shelf.old) (λ held. HasStreamProgress plan.now network.now result.status held
        (S.files shelf.new)) }
    ensures network { IsOfReplay network.now.receive result.status }
    ensures shown { HasCount (count_of network.now.receive) result }
    ensures gone { HasGone (S.counts shelf.old) (S.counts shelf.new) (blame_of result.status) }
{
    let fed = feed_stream(alloc, plan, network, shelf);
    match fed.status {
        Status::Done => play_within(alloc, plan, network, shelf, fed_of(&fed)),
        _ => fed,
    }
}

/// The numbers of a feed, from the answer that it is written.
fn fed_of(outcome: &Outcome) -> Fed
    requires { length outcome.now.numbers ≡ 3 }
    ensures { result ≡ fed_of outcome.now }
{
    let numbers = outcome.numbers.as_slice();
    Fed {
        packets: numbers[0],
        filled: numbers[1],
    }
}

/// Adapts the stream to the feed.
#[inline(never)]
fn feed_stream<S: Shelf>(alloc: Global, plan: &Plan, network: &NetPlan, shelf: &mut S) -> Outcome
    requires sound { IsSound plan.now }
    requires differ { network.now.stream ≢ feed_name }
    ensures carried { IfSome (S.files shelf.old) (λ held. IsCarriedOut
        (meaning shapes.packets (feeding plan.now) 1 (feed_name ∷ []) (files.get held network.now.stream))
        (Some held) result (S.files shelf.new)) }
    ensures network { IsOfReplay network.now.receive result.status }
    ensures count { HasCount 3 result }
    ensures gone { HasGone (S.counts shelf.old) (S.counts shelf.new) (blame_of result.status) }
{
    match Feeder::new(alloc, plan) {
        Ok(mut feeder) => {
            let stream = Input {
                name: network.stream.as_str(),
                number: 1,
            };
            carry_to_one(alloc, &mut feeder, stream, feed_name(), shelf)
        }
        Err(cause) => ended(Status::from(cause)),
    }
}

/// Plays the events over the feed that was written, where none reads past it, and receives the symbols.
fn play_within<S: Shelf>(
    alloc: Global,
    plan: &Plan,
    network: &NetPlan,
    shelf: &mut S,
    fed: Fed,
) -> Outcome
    requires sound { IsSound plan.now }
    requires network { IsNet plan.now.transmitters network.now }
    ensures carried { (held : Files) (stream : List (List ℕ)) → S.files shelf.old ≡ Some held
        → IsFeedWritten plan.now stream fed held
        → IsCarriedOut (means.fed_meaning plan.now network.now stream) (Some held) result (S.files shelf.new) }
    ensures progress { (held : Files) (stream : List (List ℕ)) → S.files shelf.old ≡ Some held
        → IsFeedWritten plan.now stream fed held
        → HasPlayProgress plan.now network.now stream result.status held (S.files shelf.new) }
    ensures network { IsOfReplay network.now.receive result.status }
    ensures shown { HasCount (count_of network.now.receive) result }
    ensures gone { HasGone (S.counts shelf.old) (S.counts shelf.new) (blame_of result.status) }
{
    match first_past_feed(&network.events, fed.packets) {
        Some(event) => ended(Status::OutOfFeed(event)),
        None => play_events(alloc, plan, network, shelf, fed),
    }
}

/// Plays the events over the feed that was written, and receives the symbols.
fn play_events<S: Shelf>(
    alloc: Global,
    plan: &Plan,
    network: &NetPlan,
    shelf: &mut S,
    fed: Fed,
) -> Outcome
    requires sound { IsSound plan.now }
    requires network { IsNet plan.now.transmitters network.now }
    ensures carried { (held : Files) (stream : List (List ℕ)) → S.files shelf.old ≡ Some held
        → IsFeedWritten plan.now stream fed held → inside.first_past_feed network.now.events (length stream) ≡ None
        → IsCarriedOut (means.played_and_received plan.now network.now stream network.now.receive) (Some held)
        result (S.files shelf.new) }
    ensures progress { (held : Files) (stream : List (List ℕ)) → S.files shelf.old ≡ Some held
        → IsFeedWritten plan.now stream fed held → inside.first_past_feed network.now.events (length stream) ≡ None
        → HasPlayProgress plan.now network.now stream result.status held (S.files shelf.new) }
    ensures network { IsOfReplay network.now.receive result.status }
    ensures shown { HasCount (count_of network.now.receive) result }
    ensures gone { HasGone (S.counts shelf.old) (S.counts shelf.new) (blame_of result.status) }
{
    match play(alloc, shelf, plan.transmitters.as_slice(), &network.events) {
        Ok(played) => receive_played(alloc, network, shelf, fed, &played),
        Err(status) => ended(status),
    }
}

/// Receives the symbols that the events sent, where a receiver is asked for.
fn receive_played<S: Shelf>(
    alloc: Global,
    network: &NetPlan,
    shelf: &mut S,
    fed: Fed,
    played: &PlayedSchedule,
) -> Outcome
    requires { IfSome network.now.receive (λ receiver. AreDamages receiver.damage) }
    ensures carried { (plan : Plan) (held : Files) (stream : List (List ℕ))
        → IsNet plan.transmitters network.now → HasNumbers stream fed
        → IsPlayout plan.transmitters played.now.playout (steps_under plan stream network.now.events)
        → S.files shelf.old ≡ with_outputs (played_outputs plan.transmitters
        (steps_under plan stream network.now.events)) (Some held)
        → IsCarriedOut (means.played_and_received plan network.now stream network.now.receive) (Some held)
        result (S.files shelf.new) }
    ensures progress { (plan : Plan) (held : Files) (stream : List (List ℕ))
        → IsNet plan.transmitters network.now
        → IsPlayout plan.transmitters played.now.playout (steps_under plan stream network.now.events)
        → S.files shelf.old ≡ with_outputs (played_outputs plan.transmitters
        (steps_under plan stream network.now.events)) (Some held)
        → HasPlayProgress plan network.now stream result.status held (S.files shelf.new) }
    ensures network { IsOfReplay network.now.receive result.status }
    ensures shown { HasCount (count_of network.now.receive) result }
    ensures gone { HasGone (S.counts shelf.old) (S.counts shelf.new) (blame_of result.status) }
{
    match &network.receive {
        Some(receiver) => {
            let symbols = played.sent(receiver.from).saturating_mul(SEGMENT as u64);
            let received = receive_sent(alloc, shelf, receiver, symbols);
            with_received(fed, played.steps(), received)
        }
        None => done(&[fed.packets, fed.filled, played.steps()]),
    }
}

/// The answer of a reception, with the numbers of the whole network where it is done.
fn with_received(fed: Fed, steps: u64, received: Outcome) -> Outcome
    requires { HasCount 6 received }
    ensures shown { HasCount 6 result }
    ensures status { result.status ≡ received.status }
    ensures outcome { result ≡ means.with_received fed.packets fed.filled steps received }
{
    match received.status {
        Status::Done => {
            let got = received.numbers.as_slice();
            done(&[fed.packets, fed.filled, steps, got[2], got[3], got[4]])
        }
        _ => received,
    }
}
