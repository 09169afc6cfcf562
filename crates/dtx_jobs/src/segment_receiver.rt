// What every receiver of segments does, so that `receive` and `mend` have one engine.
ghost use Rattle.std.specs.Prelude.{◌≡◌, ◌+◌, ◌*◌, ◌<◌, ◌≤◌, ◌++◌, [], ℤ, IfOk, List, length, take};
ghost use Rattle.dtx_receiver.specs.Runs.{runs};
ghost use Rattle.dtx_receiver.specs.Bytes.{symbols_in};
ghost use Rattle.dtx_recipes.specs.Giving.{Giving, IsGiving};

use dtx_erase::MendReceiver;
use dtx_receiver::{Batch, Progress, Receiver};
use dtx_sizes::{GROUP_PACKETS, SEGMENT};
use std::alloc::{AllocError, Global};

/// A receiver, which is given segments one after another. Receivers differ in how a word becomes a packet.
pub trait SegmentReceiver: Drop {
    /// The packets that it gives for segments.
    ghost giving: { Giving };

    /// The value stands for these segments: they are all that was given to it.
    ghost stands: { Self → List (List ℤ) → Type 0 };

    /// A receiver to which no segment was given. The only error is out of memory.
    fn new(alloc: Global) -> Result<Self, AllocError>
        ensures { IfOk result (λ receiver. stands receiver []) };

    /// Receives the first of these segments, at least one. Each segment is the bytes of its symbols. Returns how many
    /// segments it took and how many runs began with them. The batch holds the packets that became whole with them, and
    /// nothing else.
    fn take_some(&mut self, segments: &[[u8; SEGMENT]], batch: &mut Batch) -> Progress
        requires { 0 < length segments.now }
        ensures some { 0 < result.segments }
        ensures within { result.segments ≤ length segments.now }
        ensures stands { (before : List (List ℤ)) → stands self.old before
            → stands self.new (before ++ symbols_in (take result.segments segments.now)) }
        ensures packets { (before : List (List ℤ)) → stands self.old before
            → giving.so_far (before ++ symbols_in (take result.segments segments.now))
            ≡ giving.so_far before ++ batch.new.packets.items }
        ensures runs { (before : List (List ℤ)) → stands self.old before
            → length (runs (before ++ symbols_in (take result.segments segments.now)))
            ≡ length (runs before) + result.runs }
        ensures few { length batch.new.packets.items ≤ GROUP_PACKETS * result.segments }
        ensures few_runs { result.runs ≤ result.segments };

    /// Ends the current run, if there is one. The batch holds the packets that are left, and nothing else.
    fn finish(&mut self, batch: &mut Batch)
        ensures packets { (segments : List (List ℤ)) → stands self.old segments
            → giving.all segments ≡ giving.so_far segments ++ batch.new.packets.items }
        ensures few { length batch.new.packets.items ≤ GROUP_PACKETS };

    /// The law that `giving` is what a receiver gives (`IsGiving`).
    ghost gives: { IsGiving giving };
}

/// A receiver whose packets a command writes.
pub(crate) trait Receiving: SegmentReceiver {
    ghost use Rattle.dtx_engine.specs.Recipe.{IsAnswerOf};
    ghost use Rattle.dtx_meaning.specs.declared.status.Outcome.{Outcome};
    ghost use Rattle.dtx_words.specs.declared.rows.Command.{Command};
    ghost use Rattle.dtx_forms.specs.Answers.{IsKnown};
    ghost use Rattle.dtx_recipes.specs.Giving.{receiving_by};

    /// The command.
    ghost command: { Command };

    /// Every answer of the recipe is one that the command may give.
    ghost knows: { (outcome : Outcome) → IsAnswerOf (receiving_by Self.giving) outcome → IsKnown command outcome };
}

impl SegmentReceiver for Receiver {
    ghost use Rattle.dtx_receiver.specs.Receiver.{StandsFor};
    ghost use Rattle.dtx_recipes.proofs.ReceiveLemmas.{corrections_given};
    ghost use Rattle.dtx_recipes.specs.Receive.{with_corrections};

    ghost giving = { with_corrections };

    ghost stands = { StandsFor };

    fn new(alloc: Global) -> Result<Receiver, AllocError> {
        Receiver::new(alloc)
    }

    fn take_some(&mut self, segments: &[[u8; SEGMENT]], batch: &mut Batch) -> Progress {
        Receiver::take_some(self, segments, batch)
    }

    fn finish(&mut self, batch: &mut Batch) {
        Receiver::finish(self, batch);
    }

    ghost gives = { corrections_given };
}

impl SegmentReceiver for MendReceiver {
    ghost use Rattle.dtx_erase.specs.Sides.{Mends};
    ghost use Rattle.dtx_recipes.proofs.MendLemmas.{mendings_given};
    ghost use Rattle.dtx_recipes.specs.Mend.{with_mendings};

    ghost giving = { with_mendings };

    ghost stands = { Mends };

    fn new(alloc: Global) -> Result<MendReceiver, AllocError> {
        MendReceiver::new(alloc)
    }

    fn take_some(&mut self, segments: &[[u8; SEGMENT]], batch: &mut Batch) -> Progress {
        MendReceiver::take_some(self, segments, batch)
    }

    fn finish(&mut self, batch: &mut Batch) {
        MendReceiver::finish(self, batch);
    }

    ghost gives = { mendings_given };
}

impl Receiving for Receiver {
    ghost use Rattle.dtx_words.specs.declared.rows.Command.TheVariants as command;
    ghost use Rattle.dtx_recipes.proofs.AnswersLemmas.{receive_knows};

    ghost command = { command.Receive };

    ghost knows = { receive_knows };
}

impl Receiving for MendReceiver {
    ghost use Rattle.dtx_words.specs.declared.rows.Command.TheVariants as command;
    ghost use Rattle.dtx_recipes.proofs.AnswersLemmas.{mend_knows};

    ghost command = { command.Mend };

    ghost knows = { mend_knows };
}
