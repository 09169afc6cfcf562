// Why a plan is refused: the key, the entry and the rule, or out of memory.
ghost use Rattle.std.specs.Prelude.{◌≡◌};
ghost use Rattle.dtx_plan.specs.declared.refusal.PlanFault.TheVariants.{No, Memory};

use crate::key::PlanKey;
use crate::rule::PlanRule;
use std::alloc::{AllocError, AllocFailed};

/// The first rule that a plan breaks: the key, the number of the entry, and the rule. Entries are counted from 0. The
/// number is 0 where the key is in no entry.
#[derive(Clone, Copy, PartialEq, Eq)]
pub struct PlanNo {
    pub key: PlanKey,
    pub item: u32,
    pub rule: PlanRule,
}

impl PlanNo {
    /// A rule that a key of entry number `item` breaks.
    pub(crate) fn new(key: PlanKey, item: u32, rule: PlanRule) -> PlanNo
        ensures { result ≡ record { key = key; item = item; rule = rule } }
    {
        PlanNo { key, item, rule }
    }
}

/// Why no plan was read.
#[derive(Clone, Copy)]
pub enum PlanFault {
    /// The plan breaks a rule.
    No(PlanNo),
    /// Out of memory.
    Memory,
}

impl From<PlanNo> for PlanFault {
    ghost from_gives = { λ refusal fault. fault ≡ No refusal };

    fn from(refusal: PlanNo) -> PlanFault {
        PlanFault::No(refusal)
    }
}

impl From<AllocError> for PlanFault {
    ghost from_gives = { λ _ fault. fault ≡ Memory };

    fn from(_error: AllocError) -> PlanFault {
        PlanFault::Memory
    }
}

impl<T: Drop> From<AllocFailed<T>> for PlanFault {
    ghost from_gives = { λ _ fault. fault ≡ Memory };

    fn from(_error: AllocFailed<T>) -> PlanFault {
        PlanFault::Memory
    }
}
