//! What transmitters send from one feed, stated for `run` alone (the profile's own, over ATSC A/53 Part 2 and in the
//! manner of ATSC A/110).

ghost use Rattle.std.specs.Prelude.{◌≡◌, ◌≢◌, ◌+◌, ◌*◌, ◌/◌, ◌≤◌, ◌∷◌, [], ℕ, List, Ok, codes, decimal, drop, length};
ghost use Rattle.dtx_network.specs.Plans.{IsInTime, IsListed};
ghost use Rattle.dtx_packets.specs.Packets.{packets_of};
ghost use Rattle.dtx_plan.specs.Plan.{plan_of};
ghost use Rattle.dtx_plan.specs.declared.plan.Plan.{Plan};
ghost use Rattle.dtx_plan.specs.declared.transmitter.Transmitter.{Transmitter};
ghost use Rattle.dtx_file_laws.specs.Orders.{IsFirstOrder};
ghost use Rattle.dtx_file_laws.specs.Back.{Holds};

use crate::laws::calls::{run_of_adapt, run_of_code, run_of_excite};
use crate::laws::exciting::a_feed_is_sent;
use dtx_network::laws::{listings_of_a_feed, orders_of_a_feed, plans_that_are_read};
use dtx_outside::{Shelf, Sink, Word};
use dtx_packet_jobs::laws::feed_read_back;
use dtx_top::Status;
use std::alloc::Global;

/// Runs `adapt PLAN IN FEED` and `code FEED SYMBOLS` at the studio, and `excite FEED ADDRESS DELAY OUT LOG` at a
/// transmitter over a copy of that feed. Let all answer `Done`. Then the transmitter sends exactly what `code` writes
/// of the feed, from one segment on to the end. Take the first group of four packets, at packet 52 of the stream or
/// later, that holds a placeholder: the segment is the first data segment of this group. (A field sync stands before
/// each 312 data segments.) The transmitter is any one of the plan, which has at most 35, with its own address and
/// delay, and in time.
pub fn run_of_a_transmitter<S: Shelf, R: Shelf, O: Sink>(
    alloc: Global,
    words: &(&[Word], &[Word], &[Word]),
    shelves: &mut (S, R),
    out: &mut O,
) -> (Status, Status, Status)
    ensures { (plan_name input feed sent plan_bytes stream fed symbols : List ℕ) (plan : Plan) (t : Transmitter)
        (copy output log : List ℕ) (k : ℕ)
        → words.now.0.now ≡ codes "adapt" ∷ plan_name ∷ input ∷ feed ∷ []
        → words.now.1.now ≡ codes "code" ∷ feed ∷ sent ∷ []
        → words.now.2.now ≡ codes "excite" ∷ copy ∷ decimal t.address ∷ decimal t.delay ∷ output ∷ log ∷ []
        → feed ≢ sent → output ≢ log → plan_of plan_bytes ≡ Ok plan → length plan.transmitters ≤ 35
        → IsListed plan t → IsInTime plan t → IsFirstOrder (packets_of stream) k
        → Holds (S.files shelves.old.0) plan_name plan_bytes → Holds (S.files shelves.old.0) input stream
        → result.0 ≡ Status.Done → result.1 ≡ Status.Done
        → Holds (S.files shelves.new.0) feed fed → Holds (S.files shelves.new.0) sent symbols
        → Holds (R.files shelves.old.1) copy fed → result.2 ≡ Status.Done
        → Holds (R.files shelves.new.1) output (drop (832 * (k + k / 312 + 1)) symbols) }
{
    plans_that_are_read();
    feed_read_back();
    listings_of_a_feed();
    orders_of_a_feed();
    a_feed_is_sent();
    shelves.0.known();
    let adapted = run_of_adapt(alloc, words.0, &mut shelves.0, out);
    let coded = run_of_code(alloc, words.1, &mut shelves.0, out);
    let excited = run_of_excite(alloc, words.2, &mut shelves.1, out);
    (adapted, coded, excited)
}

/// A single-frequency network of three folders. Runs `adapt PLAN IN FEED` at the studio, and `excite FEED ADDRESS DELAY
/// OUT LOG` at each of two transmitters over a copy of that feed. Let all answer `Done`. Then both symbol files hold
/// the same bytes. The transmitters are any two of the plan, which has at most 35, with their own addresses and delays,
/// and in time. They may have different offsets. (With more than 35 transmitters two may be listed on different pages,
/// and one then begins later than the other.)
pub fn run_of_two_transmitters<S: Shelf, R: Shelf, T: Shelf, O: Sink>(
    alloc: Global,
    words: &(&[Word], &[Word], &[Word]),
    shelves: &mut (S, R, T),
    out: &mut O,
) -> (Status, Status, Status)
    ensures { (plan_name input feed plan_bytes stream fed : List ℕ) (plan : Plan) (t u : Transmitter)
        (feed_1 out_1 log_1 feed_2 out_2 log_2 : List ℕ)
        → words.now.0.now ≡ codes "adapt" ∷ plan_name ∷ input ∷ feed ∷ []
        → words.now.1.now ≡ codes "excite" ∷ feed_1 ∷ decimal t.address ∷ decimal t.delay ∷ out_1 ∷ log_1 ∷ []
        → words.now.2.now ≡ codes "excite" ∷ feed_2 ∷ decimal u.address ∷ decimal u.delay ∷ out_2 ∷ log_2 ∷ []
        → out_1 ≢ log_1 → out_2 ≢ log_2 → plan_of plan_bytes ≡ Ok plan → length plan.transmitters ≤ 35
        → IsListed plan t → IsInTime plan t → IsListed plan u → IsInTime plan u
        → Holds (S.files shelves.old.0) plan_name plan_bytes → Holds (S.files shelves.old.0) input stream
        → result.0 ≡ Status.Done → Holds (S.files shelves.new.0) feed fed
        → Holds (R.files shelves.old.1) feed_1 fed → result.1 ≡ Status.Done
        → Holds (T.files shelves.old.2) feed_2 fed → result.2 ≡ Status.Done
        → (symbols : List ℕ) × Holds (R.files shelves.new.1) out_1 symbols
        × Holds (T.files shelves.new.2) out_2 symbols }
{
    plans_that_are_read();
    feed_read_back();
    listings_of_a_feed();
    a_feed_is_sent();
    shelves.0.known();
    let adapted = run_of_adapt(alloc, words.0, &mut shelves.0, out);
    let first = run_of_excite(alloc, words.1, &mut shelves.1, out);
    let second = run_of_excite(alloc, words.2, &mut shelves.2, out);
    (adapted, first, second)
}
