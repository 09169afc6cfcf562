//! Counts syncs, and how many of them are slips.

ghost use Rattle.std.specs.Prelude.{◌≡◌, ◌+◌, ◌≤◌};
ghost use Rattle.dtx_level.specs.Leveller.{slip_after};

use crate::step::DUE;
use dtx_sizes::MOST_SYMBOLS;

/// How many syncs were measured, how many of them don't lie a multiple of 313 segments behind the one before, and the
/// place of the last.
#[derive(Clone, Copy, Drop)]
pub(crate) struct Tally {
    pub(crate) syncs: u64,
    pub(crate) slips: u64,
    pub(crate) last: u64,
}

impl Tally {
    /// No sync was measured.
    pub(crate) fn new() -> Tally
        ensures syncs { result.syncs ≡ 0 }
        ensures slips { result.slips ≡ 0 }
        ensures last { result.last ≡ 0 }
    {
        Tally {
            syncs: 0,
            slips: 0,
            last: 0,
        }
    }

    /// Counts one more sync, at this place.
    pub(crate) fn count(&mut self, place: u64)
        requires behind { self.old.last ≤ place }
        requires few { self.old.syncs ≤ place }
        requires fewer { self.old.slips ≤ self.old.syncs }
        requires most { place ≤ MOST_SYMBOLS }
        ensures syncs { self.new.syncs ≡ self.old.syncs + 1 }
        ensures slips { self.new.slips ≡ self.old.slips + slip_after self.old.syncs self.old.last place }
        ensures fewer { self.new.slips ≤ self.old.slips + 1 }
        ensures last { self.new.last ≡ place }
    {
        self.slips += self.slip(place);
        self.syncs += 1;
        self.last = place;
    }

    /// 1 where a sync at this place is a slip, else 0. The first sync is none.
    fn slip(&self, place: u64) -> u64
        requires { self.now.last ≤ place }
        ensures slip { result ≡ slip_after self.now.syncs self.now.last place }
        ensures small { result ≤ 1 }
    {
        if self.syncs == 0 {
            return 0;
        }
        if (place - self.last) % DUE as u64 == 0 {
            0
        } else {
            1
        }
    }
}
