// `trial SEED COUNT`: a made stream, and the network of the trial plan over it.
ghost use Rattle.std.specs.Prelude.{◌≡◌, ◌≤◌, ℕ, IfSome, Some, false};
ghost use Rattle.std.specs.FinMap as files;
ghost use Rattle.std.specs.Option.{option_and};
ghost use Rattle.dtx_forms.specs.Answers.{IsKnown, IsOfWords, same_in};
ghost use Rattle.dtx_make.specs.Made.{made_stream};
ghost use Rattle.dtx_meaning.specs.Meaning.{IsCarriedOut};
ghost use Rattle.dtx_meaning.specs.Status.{IsOfInputs, blame_of};
ghost use Rattle.dtx_outside.specs.Counts.{HasGone};
ghost use Rattle.dtx_outside.specs.Shelf.{Files};
ghost use Rattle.dtx_words.specs.Names.{trial_name};
ghost use Rattle.dtx_words.specs.declared.rows.Command.TheVariants as command;
ghost use Rattle.dtx_top.specs.NetProgress.{HasNetProgress};
ghost use Rattle.dtx_top.specs.Trial as trials;
ghost use Rattle.dtx_top.specs.Trial.{HasMadeProgress, HasNumbersHeadline, HasNumbersProgress, HasTrialHeadline};
ghost use Rattle.dtx_top.specs.Trial.{HasTrialProgress, IsTrialPlan, trial_job, trial_meaning, trial_of};

use crate::replaying::replay;
use crate::trial_plan::trial_plan;
use dtx_meaning::{Outcome, Status, ended};
use dtx_network::laws::headline;
use dtx_outside::{Shelf, Word};
use dtx_packet_jobs::make_stream;
use dtx_plan::Plan;
use dtx_words::{FEWEST_TRIAL, MOST_TRIAL, number_up_to, number_within, trial_name};
use std::alloc::Global;

/// Writes the packets 0 to COUNT - 1 that `dtx_make::packet` gives for SEED to `trial.ts`, and plays the network of the
/// trial plan over them as `net` plays one (the profile's own). Three transmitters are given the feed. The third one is
/// first given 50 packets without a mark, and its symbols are received. SEED is 0 to 2^64 - 1 and COUNT 624 to
/// 1,000,000, written as the numbers of `make` are. The numbers of the outcome are those of `net`.
pub fn trial<S: Shelf>(alloc: Global, words: &[Word], shelf: &mut S) -> Outcome
    ensures carried { IfSome (S.files shelf.old) (λ held.
        IsCarriedOut (trial_meaning words.now held) (Some held) result (S.files shelf.new)) }
    ensures gone { HasGone (S.counts shelf.old) (S.counts shelf.new) (blame_of result.status) }

    // Told or not: what the words alone say of the answer.
    ensures words { IsOfWords (same_in trial_job.fields words.now) 3 result.status }
    ensures answers { IsKnown command.Trial result }

    // How far it came, whatever it answers.
    ensures progress { IfSome (S.files shelf.old) (λ held.
        HasTrialProgress words.now held result.status (S.files shelf.new)) }

    // If it is done, the headline holds of its files.
    ensures headline { IfSome (S.files shelf.old) (λ held. result.status ≡ Status.Done
        → HasTrialHeadline words.now held (S.files shelf.new)) }
{
    match words {
        [_, seed, count] => {
            let seed = number_up_to(u64::MAX, seed.as_str());
            let count = number_within(FEWEST_TRIAL, MOST_TRIAL, count.as_str());
            trial_ordered(alloc, seed, count, shelf)
        }
        _ => ended(Status::Usage),
    }
}

/// Performs the trial if both are numbers in their ranges.
fn trial_ordered<S: Shelf>(
    alloc: Global,
    seed: Option<u64>,
    count: Option<u64>,
    shelf: &mut S,
) -> Outcome
    requires { IfSome count (λ n. (624 ≤ n) × (n ≤ 1000000)) }
    ensures carried { IfSome (S.files shelf.old) (λ held.
        IsCarriedOut (trial_of seed count) (Some held) result (S.files shelf.new)) }
    ensures gone { HasGone (S.counts shelf.old) (S.counts shelf.new) (blame_of result.status) }
    ensures words { IsOfWords (option_and seed (option_and count (Some false))) 3 result.status }
    ensures answers { IsKnown command.Trial result }
    ensures progress { IfSome (S.files shelf.old) (λ held.
        HasNumbersProgress seed count result.status held (S.files shelf.new)) }
    ensures headline { IfSome (S.files shelf.old) (λ held. result.status ≡ Status.Done
        → HasNumbersHeadline seed count held (S.files shelf.new)) }
{
    headline();
    match (seed, count) {
        (Some(seed), Some(count)) => trial_made(alloc, seed, count, shelf),
        _ => ended(Status::Usage),
    }
}

/// Makes the plan in memory, writes the stream, and plays the network.
fn trial_made<S: Shelf>(alloc: Global, seed: u64, count: u64, shelf: &mut S) -> Outcome
    requires least { 624 ≤ count }
    requires most { count ≤ 1000000 }
    ensures carried { IfSome (S.files shelf.old) (λ held.
        IsCarriedOut (trials.trial_made seed count) (Some held) result (S.files shelf.new)) }
    ensures gone { HasGone (S.counts shelf.old) (S.counts shelf.new) (blame_of result.status) }
    ensures words { IsOfInputs false 3 result.status }
    ensures answers { IsKnown command.Trial result }
    ensures progress { IfSome (S.files shelf.old) (λ held.
        HasMadeProgress seed count result.status held (S.files shelf.new)) }
{
    match trial_plan(alloc, seed, count) {
        Ok(plan) => trial_under(alloc, &plan, seed, count, shelf),
        Err(cause) => ended(Status::from(cause)),
    }
}

/// Makes the stream of this seed with `count` packets, and plays the network of its plan.
fn trial_under<S: Shelf>(
    alloc: Global,
    plan: &Plan,
    seed: u64,
    count: u64,
    shelf: &mut S,
) -> Outcome
    requires plan { plan.now ≡ trials.trial_plan seed count }
    requires least { 624 ≤ count }
    requires most { count ≤ 1000000 }
    ensures carried { IfSome (S.files shelf.old) (λ held.
        IsCarriedOut (trials.trial_made seed count) (Some held) result (S.files shelf.new)) }
    ensures gone { HasGone (S.counts shelf.old) (S.counts shelf.new) (blame_of result.status) }
    ensures words { IsOfInputs false 3 result.status }
    ensures answers { IsKnown command.Trial result }
    ensures progress { IfSome (S.files shelf.old) (λ held.
        HasMadeProgress seed count result.status held (S.files shelf.new)) }
{
    let made = make_stream(alloc, seed, count, trial_name(), shelf);
    match made.status {
        Status::Done => trial_played(alloc, plan, shelf),
        _ => made,
    }
}

/// Plays the network of the plan over the stream, which is made already.
fn trial_played<S: Shelf>(alloc: Global, plan: &Plan, shelf: &mut S) -> Outcome
    requires { IsTrialPlan plan.now }
    ensures carried { (seed count : ℕ) (held : Files) → plan.now ≡ trials.trial_plan seed count
        → S.files shelf.old ≡ Some held → files.get held trial_name ≡ Some (made_stream seed count)
        → IsCarriedOut (trials.trial_played seed count) (Some held) result (S.files shelf.new) }
    ensures gone { HasGone (S.counts shelf.old) (S.counts shelf.new) (blame_of result.status) }
    ensures words { IsOfInputs false 3 result.status }
    ensures answers { IsKnown command.Trial result }
    ensures progress { (seed count : ℕ) (held : Files) → plan.now ≡ trials.trial_plan seed count
        → S.files shelf.old ≡ Some held → files.get held trial_name ≡ Some (made_stream seed count)
        → HasNetProgress (trials.trial_plan seed count) (trials.trial_network seed count) (made_stream seed count)
        result.status held (S.files shelf.new) }
{
    match &plan.net {
        Some(network) => trial_outcome(replay(alloc, plan, network, shelf)),
        None => unreachable!(),
    }
}

/// The outcome of a network as that of a trial. A trial has no plan among its inputs, so their numbers are one less.
fn trial_outcome(outcome: Outcome) -> Outcome
    ensures { result ≡ trials.trial_outcome outcome }
{
    let status = match outcome.status {
        Status::Absent(input) => Status::Absent(input.saturating_sub(1)),
        status => status,
    };
    Outcome { status, ..outcome }
}
