// `make SEED COUNT OUT`: a made stream.
ghost use Rattle.std.specs.Prelude.{◌≡◌, false, [], Some, Option};
ghost use Rattle.std.specs.Option.{option_and};
ghost use Rattle.dtx_outside.specs.Counts.{HasGone, blame_of_write};
ghost use Rattle.dtx_outside.specs.Shelf.{Files, IsWritten, IsFlushOf};
ghost use Rattle.dtx_make.specs.Made.{made_stream};
ghost use Rattle.dtx_meaning.specs.Meaning.{IsCarriedOut};
ghost use Rattle.dtx_meaning.specs.Status.{IsOfInputs, blame_of};
ghost use Rattle.dtx_words.specs.declared.rows.Command.TheVariants as command;
ghost use Rattle.dtx_forms.specs.Answers.{IsKnown};
ghost use Rattle.dtx_forms.specs.Job.{IsPerformed, IsJobPerformed};
ghost use Rattle.dtx_recipes.specs.Make.{made_file, made_of, make_job};

use dtx_make::packet;
use dtx_meaning::{Outcome, Status, done, ended};
use dtx_outside::{Output, PIECE, Shelf, Word, WriteNo};
use dtx_sizes::MOST_PACKETS;
use dtx_words::number_up_to;
use std::alloc::Global;

/// Writes a made stream to OUT: the packets 0 to COUNT - 1 that `dtx_make::packet` gives for SEED. SEED is 0 to 2^64 -
/// 1, and COUNT is 0 to 624,000,000. Both are decimal digits without sign, and without a leading zero unless the number
/// is `0`. The line's number is COUNT.
pub fn make<S: Shelf>(alloc: Global, words: &[Word], shelf: &mut S) -> Outcome
    ensures { IsJobPerformed make_job words.now result (S.files shelf.old) (S.files shelf.new)
        (S.counts shelf.old) (S.counts shelf.new) }
{
    match words {
        [_, seed, count, output] => {
            let seed = number_up_to(u64::MAX, seed.as_str());
            let count = number_up_to(MOST_PACKETS, count.as_str());
            make_ordered(alloc, seed, count, output.as_str(), shelf)
        }
        _ => ended(Status::Usage),
    }
}

/// Makes `count` packets of the seed. `None` is a word that isn't a number in its range, and is refused.
fn make_ordered<S: Shelf>(
    alloc: Global,
    seed: Option<u64>,
    count: Option<u64>,
    output: &str,
    shelf: &mut S,
) -> Outcome
    ensures { IsPerformed command.Make (λ held. made_of seed count output.now)
        (option_and seed (option_and count (Some false))) 0 result
        (S.files shelf.old) (S.files shelf.new) (S.counts shelf.old) (S.counts shelf.new) }
{
    match (seed, count) {
        (Some(seed), Some(count)) => make_stream(alloc, seed, count, output, shelf),
        _ => ended(Status::Usage),
    }
}

/// Writes `count` packets of the seed to the output: those that `make` writes. The line's number is `count`. All memory
/// is taken before the file is begun.
pub fn make_stream<S: Shelf>(
    alloc: Global,
    seed: u64,
    count: u64,
    output: &str,
    shelf: &mut S,
) -> Outcome
    ensures carried { IsCarriedOut (made_file seed count output.now) (S.files shelf.old) result (S.files shelf.new) }
    ensures words { IsOfInputs false 0 result.status }
    ensures answers { IsKnown command.Make result }
    ensures gone { HasGone (S.counts shelf.old) (S.counts shelf.new) (blame_of result.status) }
{
    match Output::new(alloc) {
        Ok(mut made) => make_file(seed, count, output, &mut made, shelf),
        Err(_) => ended(Status::Memory),
    }
}

/// Begins the file, and makes the packets in it.
#[tactic(auto, using(crate::proofs::AnswersLemmas::write_known, dtx_forms::proofs::OfWordsLemmas::write_of_inputs))]
fn make_file<S: Shelf>(
    seed: u64,
    count: u64,
    output: &str,
    made: &mut Output<PIECE>,
    shelf: &mut S,
) -> Outcome
    requires { made.old ≡ [] }
    ensures carried { IsCarriedOut (made_file seed count output.now) (S.files shelf.old) result (S.files shelf.new) }
    ensures words { IsOfInputs false 0 result.status }
    ensures answers { IsKnown command.Make result }
    ensures gone { HasGone (S.counts shelf.old) (S.counts shelf.new) (blame_of result.status) }
{
    match shelf.begin(output) {
        Ok(()) => fill_file(seed, count, output, made, shelf),
        Err(no) => ended(Status::from(no)),
    }
}

/// Writes the packets to a file that was begun, and gives the answer.
#[tactic(auto, using(crate::proofs::AnswersLemmas::write_known, dtx_forms::proofs::OfWordsLemmas::write_of_inputs))]
fn fill_file<S: Shelf>(
    seed: u64,
    count: u64,
    output: &str,
    made: &mut Output<PIECE>,
    shelf: &mut S,
) -> Outcome
    requires { made.old ≡ [] }
    ensures carried { (start : Option Files) → IsWritten start output.now [] (S.files shelf.old)
        → IsCarriedOut (made_file seed count output.now) start result (S.files shelf.new) }
    ensures words { IsOfInputs false 0 result.status }
    ensures answers { IsKnown command.Make result }
    ensures gone { HasGone (S.counts shelf.old) (S.counts shelf.new) (blame_of result.status) }
{
    match write_made(seed, count, output, made, shelf) {
        Ok(()) => done(&[count]),
        Err(no) => ended(Status::from(no)),
    }
}

/// Writes the packets to a file that was begun.
fn write_made<S: Shelf>(
    seed: u64,
    count: u64,
    output: &str,
    made: &mut Output<PIECE>,
    shelf: &mut S,
) -> Result<(), WriteNo>
    requires { made.old ≡ [] }
    ensures written { (start : Option Files) → IsWritten start output.now [] (S.files shelf.old)
        → IsFlushOf start output.now (made_stream seed count) result (S.files shelf.new) }
    ensures gone { HasGone (S.counts shelf.old) (S.counts shelf.new) (blame_of_write result) }
{
    for index in 0..count {
        let next = packet(seed, index);
        made.write(shelf, output, &next.0)?;
    }
    made.flush(shelf, output)
}
