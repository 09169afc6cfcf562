// `net PLAN`: a network adapted, played and received.
ghost use Rattle.std.specs.Prelude.{◌≡◌, ◌≢◌, ◌≤◌, [], IfSome, Some, length};
ghost use Rattle.std.specs.FinMap as files;
ghost use Rattle.dtx_forms.specs.PlanFile.{IsPlanRead, under_plan};
ghost use Rattle.dtx_meaning.specs.Meaning.{IsCarriedOut};
ghost use Rattle.dtx_meaning.specs.Status.{blame_of};
ghost use Rattle.dtx_outside.specs.Counts.{HasGone};
ghost use Rattle.dtx_plan.specs.Sound.{HasSoundNet, IsNet, IsSound};
ghost use Rattle.dtx_words.specs.Names.{line_name, repeated, feed_name};
ghost use Rattle.dtx_top.specs.HeadlineOfFiles.{HasHeadline};
ghost use Rattle.dtx_top.specs.NetAnswers.{IsOfNetWords, IsOfNetwork, ShowsNetwork};
ghost use Rattle.dtx_top.specs.NetMeaning.{net_meaning, network_meaning, planned_meaning};
ghost use Rattle.dtx_top.specs.NetNames.{IsKeptName, IsUntoldName, kept_name, names_for, names_of_file, names_under};
ghost use Rattle.dtx_top.specs.NetNames.{net_names, plan_word, receiver_of, told_name};
ghost use Rattle.dtx_top.specs.NetProgress.{HasFileProgress, HasPlanProgress, HasProgress, HasStreamProgress};

use crate::network_names::repeated_file;
use crate::replaying::replay;
use arrayvec::ArrayString;
use dtx_forms::plan_in;
use dtx_meaning::{Outcome, Status, ended};
use dtx_network::laws::headline;
use dtx_outside::{Shelf, Word};
use dtx_plan::{NetPlan, Plan, PlanKey, PlanNo, PlanRule};
use dtx_words::{feed_name, symbol_name};
use std::alloc::Global;

/// The greatest length of the name of a stream, in bytes (the profile's own limit).
pub const STREAM_NAME: usize = 255;

/// How `net` ended, and the name in its line.
#[derive(Drop)]
pub struct NetOutcome {
    /// How it ended.
    pub outcome: Outcome,
    /// The name in its line, unless that is the word PLAN. It is a name that is repeated, or that of an absent input
    /// other than the plan, or empty.
    pub name: ArrayString<STREAM_NAME>,
}

/// Plays a network (the profile's own, in the manner of ATSC A/110, over ATSC A/53 Part 2). It adapts the stream that
/// the table `net` of PLAN names to `net.feed`, and plays the plan's events, step by step. What the transmitter of
/// address A sends goes to `tx-A.sym`, and its log to `tx-A.log`. Where a receiver is asked for, it receives the
/// symbols of its transmitter, with the plan's damage laid over them, into `net.ts`.
///
/// The numbers of the outcome are the packets of the feed, the placeholders filled and the packets given to exciters.
/// If the plan asks for a receiver, three more follow: the packets received, the bytes put right and the packets
/// flagged.
#[inline(never)]
pub fn net<S: Shelf>(alloc: Global, words: &[Word], shelf: &mut S) -> NetOutcome
    ensures carried { IfSome (S.files shelf.old) (λ held.
        IsCarriedOut (net_meaning words.now held) (Some held) result.outcome (S.files shelf.new)) }
    ensures gone { HasGone (S.counts shelf.old) (S.counts shelf.new) (blame_of result.outcome.status) }

    // The name in its line is the word PLAN where the plan isn't there, and otherwise the name that is kept.
    ensures name { IfSome (S.files shelf.old) (λ held. told_name
        (plan_word words.now) result.outcome.status result.name.bytes
        ≡ line_name result.outcome.status (net_names result.outcome.status words.now held)) }
    ensures untold_name { IsUntoldName (plan_word words.now) result.outcome.status
        (told_name (plan_word words.now) result.outcome.status result.name.bytes) }

    // Told or not: what the words alone say of the answer, and how many numbers it shows.
    ensures words { IsOfNetWords words.now result.outcome.status }
    ensures shown { ShowsNetwork result.outcome.status result.outcome }

    // The plan is read before an output is begun: where no byte of it can be read, each file is as before.
    ensures stages { S.foreseen.readable (plan_word words.now) ≡ Some 0 → S.files shelf.new ≡ S.files shelf.old }

    // How far it came, whatever it answers: one number of steps for the files of all transmitters.
    ensures progress { IfSome (S.files shelf.old) (λ held.
        HasProgress words.now held result.outcome.status (S.files shelf.new)) }

    // If it is done, the headline holds of its files.
    ensures headline { IfSome (S.files shelf.old) (λ held. result.outcome.status ≡ Status.Done
        → HasHeadline words.now held (S.files shelf.new)) }
{
    headline();
    shelf.known();
    match words {
        [_, plan] => net_file(alloc, plan.as_str(), shelf),
        _ => nameless(ended(Status::Usage)),
    }
}

/// Reads the plan, and does what `net` does under it.
#[tactic(auto, using(crate::proofs::NetAnswers::plan_of_network))]
fn net_file<S: Shelf>(alloc: Global, name: &str, shelf: &mut S) -> NetOutcome
    ensures carried { IfSome (S.files shelf.old) (λ held. IsCarriedOut
        (under_plan 0 (files.get held name.now) (λ said. planned_meaning name.now held said said.net))
        (Some held) result.outcome (S.files shelf.new)) }
    ensures gone { HasGone (S.counts shelf.old) (S.counts shelf.new) (blame_of result.outcome.status) }
    ensures progress { IfSome (S.files shelf.old) (λ held. HasFileProgress name.now
        result.outcome.status held (S.files shelf.new)) }
    ensures name { IfSome (S.files shelf.old) (λ held. told_name name.now result.outcome.status result.name.bytes
        ≡ line_name result.outcome.status (names_of_file result.outcome.status name.now
        (files.get held name.now))) }
    ensures kept { IsKeptName result.outcome.status result.name.bytes }
    ensures network { IsOfNetwork result.outcome.status }
    ensures shown { ShowsNetwork result.outcome.status result.outcome }
    ensures stages { S.foreseen.readable name.now ≡ Some 0 → S.files shelf.new ≡ S.files shelf.old }
{
    match plan_in(alloc, shelf, 0, name) {
        Ok(plan) => net_planned(alloc, name, &plan, shelf),
        Err(status) => nameless(ended(status)),
    }
}

/// An outcome with an empty name.
fn nameless(outcome: Outcome) -> NetOutcome
    ensures outcome { result.outcome ≡ outcome }
    ensures name { result.name.bytes ≡ [] }
{
    NetOutcome {
        outcome,
        name: ArrayString::new(),
    }
}

/// Does what `net` does under the plan that was read.
fn net_planned<S: Shelf>(alloc: Global, name: &str, plan: &Plan, shelf: &mut S) -> NetOutcome
    requires sound { IsSound plan.now }
    requires net { HasSoundNet plan.now }
    ensures carried { IfSome (S.files shelf.old) (λ held. IsCarriedOut
        (planned_meaning name.now held plan.now plan.now.net)
        (Some held) result.outcome (S.files shelf.new)) }
    ensures gone { HasGone (S.counts shelf.old) (S.counts shelf.new) (blame_of result.outcome.status) }
    ensures progress { IfSome (S.files shelf.old) (λ held. HasPlanProgress plan.now plan.now.net
        result.outcome.status held (S.files shelf.new)) }
    ensures name { IfSome (S.files shelf.old) (λ held. told_name name.now result.outcome.status result.name.bytes
        ≡ line_name result.outcome.status (names_under result.outcome.status name.now plan.now
        plan.now.net)) }
    ensures kept { IsKeptName result.outcome.status result.name.bytes }
    ensures network { IsOfNetwork result.outcome.status }
    ensures shown { ShowsNetwork result.outcome.status result.outcome }
{
    match &plan.net {
        Some(network) => net_apart(alloc, name, plan, network, shelf),
        None => nameless(ended(Status::Plan(PlanNo {
            key: PlanKey::Net,
            item: 0,
            rule: PlanRule::Missing,
        }))),
    }
}

/// Compares the names of the files, and does what `net` does with them.
fn net_apart<S: Shelf>(
    alloc: Global,
    name: &str,
    plan: &Plan,
    network: &NetPlan,
    shelf: &mut S,
) -> NetOutcome
    requires sound { IsSound plan.now }
    requires network { IsNet plan.now.transmitters network.now }
    ensures carried { IfSome (S.files shelf.old) (λ held. IsCarriedOut
        (planned_meaning name.now held plan.now (Some network.now))
        (Some held) result.outcome (S.files shelf.new)) }
    ensures gone { HasGone (S.counts shelf.old) (S.counts shelf.new) (blame_of result.outcome.status) }
    ensures progress { IfSome (S.files shelf.old) (λ held. HasStreamProgress plan.now network.now
        result.outcome.status held (S.files shelf.new)) }
    ensures name { IfSome (S.files shelf.old) (λ held. told_name name.now result.outcome.status result.name.bytes
        ≡ line_name result.outcome.status (names_for result.outcome.status name.now plan.now
        network.now)) }
    ensures kept { IsKeptName result.outcome.status result.name.bytes }
    ensures network { IsOfNetwork result.outcome.status }
    ensures shown { ShowsNetwork result.outcome.status result.outcome }
{
    match repeated_file(name, plan, network) {
        Some(twice) => NetOutcome {
            outcome: ended(Status::Same),
            name: twice,
        },
        None => net_replayed(alloc, plan, network, shelf),
    }
}

/// Does what `net` does once no two names are equal.
#[tactic(auto, using(crate::proofs::NetAnswers::network_of_replay, crate::proofs::NetAnswers::shows_network))]
fn net_replayed<S: Shelf>(
    alloc: Global,
    plan: &Plan,
    network: &NetPlan,
    shelf: &mut S,
) -> NetOutcome
    requires sound { IsSound plan.now }
    requires network { IsNet plan.now.transmitters network.now }
    requires differ { network.now.stream ≢ feed_name }
    ensures carried { IfSome (S.files shelf.old) (λ held. IsCarriedOut
        (network_meaning plan.now network.now (files.get held network.now.stream)) (Some held) result.outcome
        (S.files shelf.new)) }
    ensures gone { HasGone (S.counts shelf.old) (S.counts shelf.new) (blame_of result.outcome.status) }
    ensures progress { IfSome (S.files shelf.old) (λ held. HasStreamProgress plan.now network.now
        result.outcome.status held (S.files shelf.new)) }
    ensures name { result.name.bytes ≡ kept_name network.now result.outcome.status }
    ensures network { IsOfNetwork result.outcome.status }
    ensures shown { ShowsNetwork result.outcome.status result.outcome }
{
    let outcome = replay(alloc, plan, network, shelf);
    NetOutcome {
        name: missed_name(network, outcome.status),
        outcome,
    }
}

/// The name of the input that isn't there, or an empty name if the status is another one.
fn missed_name(network: &NetPlan, status: Status) -> ArrayString<STREAM_NAME>
    requires { length network.now.stream ≤ STREAM_NAME }
    ensures { result.bytes ≡ kept_name network.now status }
{
    let mut name = ArrayString::new();
    match status {
        Status::Absent(1) => name.push_str(network.stream.as_str()),
        Status::Absent(2) => name.push_str(feed_name()),
        Status::Absent(3) => name.push_str(symbol_name(receiver_of(network)).as_str()),
        _ => {}
    }
    name
}

/// The address of the transmitter whose symbols are received, or 0 without a receiver.
fn receiver_of(network: &NetPlan) -> u16
    ensures { result ≡ receiver_of network.now.receive }
{
    match &network.receive {
        Some(receiver) => receiver.from,
        None => 0,
    }
}
