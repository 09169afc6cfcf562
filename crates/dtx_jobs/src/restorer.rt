// What every restorer of segments does, so that `acquire` and `refine` have one engine.
ghost use Rattle.std.specs.Prelude.{◌≡◌, ◌+◌, ◌*◌, ◌<◌, ◌≤◌, ◌++◌, [], ℕ, ℤ, IfOk, List, length, take};
ghost use Rattle.dtx_files.specs.Symbols.{segment_bytes};
ghost use Rattle.dtx_forms.specs.Capture.{IsSetting};
ghost use Rattle.dtx_meaning.specs.Status.{IsOfBytes, blame_of};
ghost use Rattle.dtx_outside.specs.Counts.{Nothing};
ghost use Rattle.dtx_recipes.specs.Restoring.{IsRestoring, Restoring, restoring_by};

use crate::symbol_buffer::SymbolBuffer;
use dtx_acquire::MOST_HELD;
use dtx_forms::{PIECE_BYTES, Setting};
use dtx_meaning::Outcome;
use dtx_sizes::{MOST_SYMBOLS, SEGMENT};
use std::alloc::{AllocError, Global};

/// Makes whole segments of a capture's symbols as they come. A piece brings at most `N` symbols, and so does the end.
pub(crate) trait Restorer<const N: usize>: Drop {
    ghost use Rattle.dtx_engine.specs.Recipe.{IsAnswerOf};
    ghost use Rattle.dtx_meaning.specs.declared.status.Outcome.{Outcome};
    ghost use Rattle.dtx_words.specs.declared.rows.Command.{Command};
    ghost use Rattle.dtx_forms.specs.Answers.{IsKnown};

    /// The command.
    ghost command: { Command };

    /// What is made at a scale in so many rounds.
    ghost makes: { ℕ → ℕ → Restoring };

    /// What this value makes.
    ghost restoring: { Self → Restoring };

    /// The value stands for these symbols: they are all that was given to it.
    ghost stands: { Self → List ℤ → Type 0 };

    /// How many symbols it holds.
    ghost held: { Self → ℕ };

    /// The segments that the last call has brought.
    ghost given: { Self → List (List ℤ) };

    /// A restorer to which no symbol was given. The only error is out of memory.
    fn new(alloc: Global, setting: Setting) -> Result<Self, AllocError>
        requires { IsSetting setting }
        ensures stands { IfOk result (λ restorer. stands restorer []) }
        ensures makes { IfOk result (λ restorer. restoring restorer ≡ makes setting.scale setting.rounds) };

    /// Gives proofs facts, and has no effect.
    fn known(&self)
        ensures held { (symbols : List ℤ) → stands self.now symbols → held self.now < MOST_HELD }
        ensures room { PIECE_BYTES + MOST_HELD ≤ N };

    /// Takes the first of these symbols, and returns how many it took.
    fn take(&mut self, symbols: &[i8]) -> usize
        requires most { (before : List ℤ) × stands self.old before
            × (length before + length symbols.now ≤ MOST_SYMBOLS) }
        ensures within { result ≤ length symbols.now }
        ensures some { (before : List ℤ) → stands self.old before → 0 < length symbols.now → 0 < result }
        ensures stands { (before : List ℤ) → stands self.old before
            → stands self.new (before ++ take result symbols.now) }
        ensures made { (before : List ℤ) → stands self.old before
            → (restoring self.old).so_far (before ++ take result symbols.now)
            ≡ (restoring self.old).so_far before ++ given self.new }
        ensures room { SEGMENT * length (given self.new) + held self.new ≤ held self.old + result }
        ensures kept { restoring self.new ≡ restoring self.old };

    /// The segments that the last call of `take` has brought.
    fn given(&self) -> &[[i8; SEGMENT]]
        ensures { result.now ≡ given self.now };

    /// Ends the symbols, appends the last segments to `gathered`, and gives the answer.
    fn finish(&mut self, gathered: &mut SymbolBuffer<N>) -> Outcome
        requires stands { (symbols : List ℤ) × stands self.old symbols }
        requires empty { gathered.old ≡ [] }
        ensures rest { (symbols : List ℤ) → stands self.old symbols
            → gathered.new ≡ segment_bytes ((restoring self.old).rest symbols) }
        ensures answer { (symbols : List ℤ) → stands self.old symbols
            → result ≡ (restoring self.old).answer symbols }
        ensures kept { restoring self.new ≡ restoring self.old }
        ensures verdict { blame_of result.status ≡ Nothing }
        ensures bytes { IsOfBytes result.status };

    /// What it makes grows with the symbols.
    ghost restores: { (s : Self) → IsRestoring (restoring s) };

    /// Each answer that can come is one that the command may give.
    ghost knows: { (scale rounds : ℕ) (outcome : Outcome) → IsAnswerOf (restoring_by (makes scale rounds)) outcome
        → IsKnown command outcome };
}
