//! Finds the next sync among the symbols that are held.

ghost use Rattle.std.specs.Prelude.{◌≡◌, ℤ, ◌+◌, ◌*◌, ◌<◌, ◌≤◌, ◌⊎◌, ◌++◌, Bool, true, [], ◌∷◌, List, length, drop};
ghost use Rattle.dtx_acquire.specs.Acquired.{fields_where};
ghost use Rattle.dtx_acquire.specs.Acquirer.{IsSought, field_of, where_wanted};
ghost use Rattle.dtx_acquire.specs.Agreement.{agrees};

use crate::searching::{is_sync_at, search};
use crate::symbol_window::{MOST_HELD, SymbolWindow};
use crate::upright::Upright;
use dtx_sizes::{FIELD_SEGMENTS, SEGMENT};

/// How many segments a field has.
pub(crate) const FIELD: usize = FIELD_SEGMENTS as usize;

/// How many symbols after a sync the next one is due.
const DUE: usize = SEGMENT * FIELD;

/// Looks for a sync if none stands in front of the symbols (`on`). Drops the symbols before the sync. If there is none,
/// it drops all but the last 831, where a sync may begin. Returns whether a sync stands in front now.
#[tactic(auto, using(crate::proofs::AgreementLemmas::past_end))]
pub(crate) fn seek(on: bool, held: &mut SymbolWindow) -> bool
    requires { on ≡ true → agrees held.old 0 ≡ true }
    ensures front { result ≡ true → agrees held.new 0 ≡ true }
    ensures sought { IsSought held.old held.new }
    ensures few { (result ≡ true) ⊎ (length held.new < SEGMENT) }
{
    if on {
        return true;
    }
    match search(&Upright, held.all(), 0) {
        Some(place) => {
            held.leave(place);
            true
        }
        None => {
            let count = held.len();
            held.leave(count.saturating_sub(SEGMENT - 1));
            false
        }
    }
}

/// What happens to a field once the segment after it is held. `count` symbols are dropped, and `given` segments are
/// given. `on` says whether a sync stands in front of what is left, and `begins` whether a run would begin with it.
#[derive(Clone, Copy, Drop)]
pub(crate) struct Step {
    pub(crate) count: usize,
    pub(crate) given: usize,
    pub(crate) on: bool,
    pub(crate) begins: bool,
}

/// The step of a field in front of the symbols. The run goes on if a sync stands where the next one is due. If one
/// stands earlier instead, symbols were lost, and the field isn't given.
#[tactic(auto, using(crate::proofs::AgreementLemmas::past_end))]
pub(crate) fn step_of(symbols: &[i8]) -> Step
    requires full { length symbols.now ≡ MOST_HELD }
    requires front { agrees symbols.now 0 ≡ true }
    ensures fields { (wanted : Bool → Bool) (begins : Bool) (more : List ℤ)
        → fields_where wanted begins (symbols.now ++ more)
        ≡ where_wanted (wanted true) (field_of result.given begins symbols.now ∷ [])
        ++ fields_where wanted result.begins (drop result.count symbols.now ++ more) }
    ensures front { result.on ≡ true → agrees (drop result.count symbols.now) 0 ≡ true }
    ensures some { 0 < result.count }
    ensures most { result.count ≤ MOST_HELD }
    ensures whole { (result.given ≡ FIELD) ⊎ (result.given ≡ 0) }
    ensures few { result.given ≤ FIELD }
    ensures behind { SEGMENT * result.given ≤ result.count }
{
    if is_sync_at(&Upright, symbols, DUE) {
        return Step {
            count: DUE,
            given: FIELD,
            on: true,
            begins: false,
        };
    }
    match search(&Upright, symbols, 1) {
        Some(count) => Step {
            count,
            given: 0,
            on: true,
            begins: true,
        },
        None => Step {
            count: DUE + 1,
            given: FIELD,
            on: false,
            begins: true,
        },
    }
}
