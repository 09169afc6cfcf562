//! What the command `trial` leaves in its files, for every seed and number of packets that it takes. It reads no file
//! that was there before, so nothing is asked of one. The symbols are those of ATSC A/53 Part 2. The feed and the logs
//! are the profile's own, in the manner of ATSC A/110.

ghost use Rattle.std.specs.Prelude.{◌≡◌, ◌^◌, ◌<◌, ◌≤◌, ◌∷◌, [], ℕ, IfSome, IsSomeAnd, codes, decimal};
ghost use Rattle.dtx_outside.specs.Shelf.{Files};
ghost use Rattle.dtx_top.specs.Trial.{IsTrialDone};
ghost use Rattle.dtx_trial.specs.TrialFiles.{AreTrialFiles};

use dtx_network::laws::{
    from_a_mark, gives_all_back, listings_of_a_feed, orders_of_a_feed, packets_of_a_feed,
    stretch_is_slight,
};
use dtx_outside::{Shelf, Sink, Word};
use dtx_top::laws::{a_trial_is_done, made_packets_are_a_stream};
use dtx_top::{Status, run};
use std::alloc::Global;

/// Each trial of which the headline holds has left these files.
pub fn files_of_a_done_trial()
    ensures { (seed count : ℕ) (held now : Files) → 624 ≤ count → count ≤ 1000000 → IsTrialDone seed count held now
        → AreTrialFiles seed count now }
{
    a_trial_is_done();
    made_packets_are_a_stream();
    orders_of_a_feed();
    listings_of_a_feed();
    from_a_mark();
    packets_of_a_feed();
    stretch_is_slight();
    gives_all_back();
}

/// What `run` leaves after `trial SEED COUNT`, for every SEED below 2^64 and COUNT from 624 to 1,000,000, if the
/// shelf's files are told and the answer is `Done`. The files `tx-1.sym`, `tx-2.sym` and `tx-3.sym` hold the same
/// bytes: the A/53 symbols of the made stream's feed from the group of its first order on. Each log is exactly the
/// presets of the feed's orders. Their moments differ between the three logs by the offsets and in nothing else.
/// `net.ts` holds packets of the feed, from the first field sync of these symbols on, with 0x47 as their sync bytes.
/// They are exactly those whose bytes are all there. The program doesn't call this function. It is a law that follows
/// from the clauses of `run`, which it calls.
pub fn run_of_a_trial<S: Shelf, O: Sink>(
    alloc: Global,
    words: &[Word],
    shelf: &mut S,
    out: &mut O,
) -> Status
    ensures { (seed count : ℕ) → words.now ≡ codes "trial" ∷ decimal seed ∷ decimal count ∷ [] → seed < 2 ^ 64
        → 624 ≤ count → count ≤ 1000000 → IfSome (S.files shelf.old) (λ held. result ≡ Status.Done
        → IsSomeAnd (S.files shelf.new) (AreTrialFiles seed count)) }
{
    files_of_a_done_trial();
    run(alloc, words, shelf, out)
}
