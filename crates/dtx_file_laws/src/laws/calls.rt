//! What `run` leaves for one command, if the files are told. After `Done` the meaning of the input's file is done, and
//! its outputs are whole. A clause `answer` says more: if the names are different and not empty, the answer is that of
//! this meaning, an I/O error or out of memory.

ghost use Rattle.std.specs.Prelude.{◌≡◌, ◌≢◌, ◌⊎◌, ◌<◌, ◌≤◌, ◌∷◌, [], ℕ, IfSome, List, Ok, Some, codes, decimal};
ghost use Rattle.std.specs.FinMap.{get};
ghost use Rattle.dtx_engine.specs.Recipe.{meaning_of_file};
ghost use Rattle.dtx_forms.specs.Shapes as shapes;
ghost use Rattle.dtx_meaning.specs.Meaning.{IsAnswered};
ghost use Rattle.dtx_meaning.specs.Status.{IsFault};
ghost use Rattle.dtx_recipes.specs.Adapt.{feeding};
ghost use Rattle.dtx_recipes.specs.DvbCode.{dvb_coding};
ghost use Rattle.dtx_recipes.specs.DvbRead.{dvb_reading};
ghost use Rattle.dtx_recipes.specs.DvbCode as dvb;
ghost use Rattle.dtx_plan.specs.Plan.{plan_of};
ghost use Rattle.dtx_plan.specs.declared.plan.Plan.{Plan};
ghost use Rattle.dtx_recipes.specs.Acquire.{acquiring};
ghost use Rattle.dtx_recipes.specs.Code.{coding};
ghost use Rattle.dtx_recipes.specs.Excite.{exciting};
ghost use Rattle.dtx_recipes.specs.Mend.{mending_symbols};
ghost use Rattle.dtx_recipes.specs.Receive.{receiving};
ghost use Rattle.dtx_recipes.specs.Refine.{refining};
ghost use Rattle.dtx_words.specs.Line.{done_line};
ghost use Rattle.dtx_words.specs.Printed.{printed};
ghost use Rattle.dtx_words.specs.declared.rows.Command.TheVariants as command;

use dtx_outside::{Shelf, Sink, Word};
use dtx_top::{Status, run};
use std::alloc::Global;

/// `code IN OUT`: the meaning of IN's packets is done, and OUT holds its output.
pub fn run_of_code<S: Shelf, O: Sink>(
    alloc: Global,
    words: &[Word],
    shelf: &mut S,
    out: &mut O,
) -> Status
    ensures done { (input output file : List ℕ) → words.now ≡ codes "code" ∷ input ∷ output ∷ []
        → IfSome (S.files shelf.old) (λ held. get held input ≡ Some file → result ≡ Status.Done
        → IsAnswered (meaning_of_file shapes.coded_packets coding (output ∷ []) file) (Some held) result
        (S.files shelf.new)) }
    ensures answer { (input output file : List ℕ) → words.now ≡ codes "code" ∷ input ∷ output ∷ []
        → input ≢ [] → output ≢ [] → input ≢ output
        → IfSome (S.files shelf.old) (λ held. get held input ≡ Some file
        → (result ≡ (meaning_of_file shapes.coded_packets coding (output ∷ []) file).outcome.status)
        ⊎ IsFault result) }
{
    run(alloc, words, shelf, out)
}

/// `receive IN OUT`: the meaning of IN's symbols is done, OUT holds its output, and the line has its numbers.
pub fn run_of_receive<S: Shelf, O: Sink>(
    alloc: Global,
    words: &[Word],
    shelf: &mut S,
    out: &mut O,
) -> Status
    ensures done { (input output file : List ℕ) → words.now ≡ codes "receive" ∷ input ∷ output ∷ []
        → IfSome (S.files shelf.old) (λ held. get held input ≡ Some file → result ≡ Status.Done
        → IsAnswered (meaning_of_file shapes.segments receiving (output ∷ []) file) (Some held) result
        (S.files shelf.new)) }
    ensures answer { (input output file : List ℕ) → words.now ≡ codes "receive" ∷ input ∷ output ∷ []
        → input ≢ [] → output ≢ [] → input ≢ output
        → IfSome (S.files shelf.old) (λ held. get held input ≡ Some file
        → (result ≡ (meaning_of_file shapes.segments receiving (output ∷ []) file).outcome.status)
        ⊎ IsFault result) }
    ensures line { (input output file : List ℕ) → words.now ≡ codes "receive" ∷ input ∷ output ∷ []
        → IfSome (S.files shelf.old) (λ held. get held input ≡ Some file → result ≡ Status.Done
        → O.written out.new ≡ printed (done_line (Some command.Receive)
        (meaning_of_file shapes.segments receiving (output ∷ []) file).outcome) (O.written out.old)) }
{
    run(alloc, words, shelf, out)
}

/// `mend IN OUT`: the meaning of IN's symbols is done, OUT holds its output, and the line has its numbers.
pub fn run_of_mend<S: Shelf, O: Sink>(
    alloc: Global,
    words: &[Word],
    shelf: &mut S,
    out: &mut O,
) -> Status
    ensures done { (input output file : List ℕ) → words.now ≡ codes "mend" ∷ input ∷ output ∷ []
        → IfSome (S.files shelf.old) (λ held. get held input ≡ Some file → result ≡ Status.Done
        → IsAnswered (meaning_of_file shapes.segments mending_symbols (output ∷ []) file) (Some held) result
        (S.files shelf.new)) }
    ensures answer { (input output file : List ℕ) → words.now ≡ codes "mend" ∷ input ∷ output ∷ []
        → input ≢ [] → output ≢ [] → input ≢ output
        → IfSome (S.files shelf.old) (λ held. get held input ≡ Some file
        → (result ≡ (meaning_of_file shapes.segments mending_symbols (output ∷ []) file).outcome.status)
        ⊎ IsFault result) }
    ensures line { (input output file : List ℕ) → words.now ≡ codes "mend" ∷ input ∷ output ∷ []
        → IfSome (S.files shelf.old) (λ held. get held input ≡ Some file → result ≡ Status.Done
        → O.written out.new ≡ printed (done_line (Some command.Mend)
        (meaning_of_file shapes.segments mending_symbols (output ∷ []) file).outcome) (O.written out.old)) }
{
    run(alloc, words, shelf, out)
}

/// `dvb code IN OUT`: the meaning of IN's packets is done, and OUT holds its output.
pub fn run_of_dvb_code<S: Shelf, O: Sink>(
    alloc: Global,
    words: &[Word],
    shelf: &mut S,
    out: &mut O,
) -> Status
    ensures done { (input output file : List ℕ) → words.now ≡ codes "dvb" ∷ codes "code" ∷ input ∷ output ∷ []
        → IfSome (S.files shelf.old) (λ held. get held input ≡ Some file → result ≡ Status.Done
        → IsAnswered (meaning_of_file dvb.dvb_packets dvb_coding (output ∷ []) file) (Some held) result
        (S.files shelf.new)) }
    ensures answer { (input output file : List ℕ) → words.now ≡ codes "dvb" ∷ codes "code" ∷ input ∷ output ∷ []
        → input ≢ [] → output ≢ [] → input ≢ output
        → IfSome (S.files shelf.old) (λ held. get held input ≡ Some file
        → (result ≡ (meaning_of_file dvb.dvb_packets dvb_coding (output ∷ []) file).outcome.status)
        ⊎ IsFault result) }
{
    run(alloc, words, shelf, out)
}

/// `dvb read IN OUT`: the meaning of IN's blocks is done, OUT holds its output, and the line has its numbers.
pub fn run_of_dvb_read<S: Shelf, O: Sink>(
    alloc: Global,
    words: &[Word],
    shelf: &mut S,
    out: &mut O,
) -> Status
    ensures done { (input output file : List ℕ) → words.now ≡ codes "dvb" ∷ codes "read" ∷ input ∷ output ∷ []
        → IfSome (S.files shelf.old) (λ held. get held input ≡ Some file → result ≡ Status.Done
        → IsAnswered (meaning_of_file dvb.blocks dvb_reading (output ∷ []) file) (Some held) result
        (S.files shelf.new)) }
    ensures answer { (input output file : List ℕ) → words.now ≡ codes "dvb" ∷ codes "read" ∷ input ∷ output ∷ []
        → input ≢ [] → output ≢ [] → input ≢ output
        → IfSome (S.files shelf.old) (λ held. get held input ≡ Some file
        → (result ≡ (meaning_of_file dvb.blocks dvb_reading (output ∷ []) file).outcome.status)
        ⊎ IsFault result) }
    ensures line { (input output file : List ℕ) → words.now ≡ codes "dvb" ∷ codes "read" ∷ input ∷ output ∷ []
        → IfSome (S.files shelf.old) (λ held. get held input ≡ Some file → result ≡ Status.Done
        → O.written out.new ≡ printed (done_line (Some command.DvbRead)
        (meaning_of_file dvb.blocks dvb_reading (output ∷ []) file).outcome) (O.written out.old)) }
{
    run(alloc, words, shelf, out)
}

/// `acquire SCALE IN OUT`: the meaning of IN's samples is done, and OUT holds its output.
pub fn run_of_acquire<S: Shelf, O: Sink>(
    alloc: Global,
    words: &[Word],
    shelf: &mut S,
    out: &mut O,
) -> Status
    ensures done { (scale : ℕ) (input output file : List ℕ)
        → words.now ≡ codes "acquire" ∷ decimal scale ∷ input ∷ output ∷ []
        → 0 < scale → scale ≤ 18
        → IfSome (S.files shelf.old) (λ held. get held input ≡ Some file → result ≡ Status.Done
        → IsAnswered (meaning_of_file shapes.single_bytes (acquiring scale) (output ∷ []) file) (Some held) result
        (S.files shelf.new)) }
    ensures answer { (scale : ℕ) (input output file : List ℕ)
        → words.now ≡ codes "acquire" ∷ decimal scale ∷ input ∷ output ∷ []
        → 0 < scale → scale ≤ 18
        → input ≢ [] → output ≢ [] → input ≢ output
        → IfSome (S.files shelf.old) (λ held. get held input ≡ Some file
        → (result ≡ (meaning_of_file shapes.single_bytes (acquiring scale) (output ∷ []) file).outcome.status)
        ⊎ IsFault result) }
{
    run(alloc, words, shelf, out)
}

/// `refine SCALE ROUNDS IN OUT`: the meaning of IN's samples is done, and OUT holds its output.
pub fn run_of_refine<S: Shelf, O: Sink>(
    alloc: Global,
    words: &[Word],
    shelf: &mut S,
    out: &mut O,
) -> Status
    ensures done { (scale rounds : ℕ) (input output file : List ℕ)
        → words.now ≡ codes "refine" ∷ decimal scale ∷ decimal rounds ∷ input ∷ output ∷ []
        → 0 < scale → scale ≤ 18 → 0 < rounds → rounds ≤ 32
        → IfSome (S.files shelf.old) (λ held. get held input ≡ Some file → result ≡ Status.Done
        → IsAnswered (meaning_of_file shapes.single_bytes (refining scale rounds) (output ∷ []) file) (Some held)
        result (S.files shelf.new)) }
    ensures answer { (scale rounds : ℕ) (input output file : List ℕ)
        → words.now ≡ codes "refine" ∷ decimal scale ∷ decimal rounds ∷ input ∷ output ∷ []
        → 0 < scale → scale ≤ 18 → 0 < rounds → rounds ≤ 32
        → input ≢ [] → output ≢ [] → input ≢ output
        → IfSome (S.files shelf.old) (λ held. get held input ≡ Some file
        → (result ≡ (meaning_of_file shapes.single_bytes (refining scale rounds) (output ∷ []) file).outcome.status)
        ⊎ IsFault result) }
{
    run(alloc, words, shelf, out)
}

/// `excite FEED ADDRESS DELAY OUT LOG`: the meaning of FEED's packets is done, and OUT and LOG hold its outputs.
pub fn run_of_excite<S: Shelf, O: Sink>(
    alloc: Global,
    words: &[Word],
    shelf: &mut S,
    out: &mut O,
) -> Status
    ensures done { (address delay : ℕ) (input output log file : List ℕ)
        → words.now ≡ codes "excite" ∷ input ∷ decimal address ∷ decimal delay ∷ output ∷ log ∷ []
        → address ≤ 65535 → delay ≤ 4294967295
        → IfSome (S.files shelf.old) (λ held. get held input ≡ Some file → result ≡ Status.Done
        → IsAnswered (meaning_of_file shapes.coded_packets (exciting address delay) (output ∷ log ∷ []) file)
        (Some held) result (S.files shelf.new)) }
    ensures answer { (address delay : ℕ) (input output log file : List ℕ)
        → words.now ≡ codes "excite" ∷ input ∷ decimal address ∷ decimal delay ∷ output ∷ log ∷ []
        → address ≤ 65535 → delay ≤ 4294967295
        → input ≢ [] → output ≢ [] → log ≢ [] → input ≢ output → input ≢ log → output ≢ log
        → IfSome (S.files shelf.old) (λ held. get held input ≡ Some file
        → (result ≡ (meaning_of_file shapes.coded_packets (exciting address delay) (output ∷ log ∷ [])
        file).outcome.status)
        ⊎ IsFault result) }
{
    run(alloc, words, shelf, out)
}

/// `adapt PLAN IN OUT`, where PLAN is a plan: the meaning of IN's packets under it is done, and OUT holds its output.
pub fn run_of_adapt<S: Shelf, O: Sink>(
    alloc: Global,
    words: &[Word],
    shelf: &mut S,
    out: &mut O,
) -> Status
    ensures done { (plan : Plan) (plan_name input output bytes file : List ℕ)
        → words.now ≡ codes "adapt" ∷ plan_name ∷ input ∷ output ∷ [] → plan_of bytes ≡ Ok plan
        → IfSome (S.files shelf.old) (λ held. get held plan_name ≡ Some bytes → get held input ≡ Some file
        → result ≡ Status.Done
        → IsAnswered (meaning_of_file shapes.packets (feeding plan) (output ∷ []) file) (Some held) result
        (S.files shelf.new)) }
    ensures answer { (plan : Plan) (plan_name input output bytes file : List ℕ)
        → words.now ≡ codes "adapt" ∷ plan_name ∷ input ∷ output ∷ [] → plan_of bytes ≡ Ok plan
        → plan_name ≢ [] → input ≢ [] → output ≢ []
        → plan_name ≢ input → plan_name ≢ output → input ≢ output
        → IfSome (S.files shelf.old) (λ held. get held plan_name ≡ Some bytes → get held input ≡ Some file
        → (result ≡ (meaning_of_file shapes.packets (feeding plan) (output ∷ []) file).outcome.status)
        ⊎ IsFault result) }
{
    run(alloc, words, shelf, out)
}
