//! Where the next sync is among the held symbols.

ghost use Rattle.std.specs.Prelude.{◌≡◌, ◌≤◌, true, length, drop};
ghost use Rattle.dtx_level.specs.Shown.{shows};
ghost use Rattle.dtx_level.specs.Leveller.{step_at};

use crate::pattern::Pattern;
use dtx_acquire::{MOST_HELD, is_sync_at, search};
use dtx_sizes::SEGMENT;

/// How many symbols behind a sync the next one is due.
pub(crate) const DUE: usize = MOST_HELD - SEGMENT;

/// The symbols that a sync levels: how many they are, and whether the next sync begins right behind them.
#[derive(Clone, Copy, Drop)]
pub(crate) struct Step {
    pub(crate) count: usize,
    pub(crate) on: bool,
}

/// The step of the sync in front of the symbols. The next sync is where it is due, if one is there. Else it is at the
/// least place behind this sync's segment. Where no next sync is found, this sync levels all symbols but the last 831,
/// at which a sync may begin.
#[tactic(auto, using(crate::proofs::Shows::past_end))]
pub(crate) fn step_of(pattern: &Pattern, symbols: &[i8]) -> Step
    requires { length symbols.now ≡ MOST_HELD }
    ensures step { result ≡ step_at symbols.now }
    ensures most { result.count ≤ MOST_HELD }
    ensures some { SEGMENT ≤ result.count }
    ensures front { result.on ≡ true → shows (drop result.count symbols.now) 0 ≡ true }
{
    if is_sync_at(pattern, symbols, DUE) {
        return Step {
            count: DUE,
            on: true,
        };
    }
    match search(pattern, symbols, SEGMENT) {
        Some(count) => Step { count, on: true },
        None => Step {
            count: DUE + 1,
            on: false,
        },
    }
}
