//! The numbers of the fields that had all rounds.

ghost use Rattle.std.specs.Prelude.{◌≡◌, ◌*◌, ◌<◌, ◌≤◌};

use dtx_rounds::Field;

/// More fields than all segments of a capture, so few that no sum overflows.
pub(crate) const MOST_FIELDS: u64 = 700_000_000;

/// How many fields had all rounds, and the sums of what the last round says of them.
#[derive(Drop)]
pub(crate) struct Numbers {
    /// How many fields there are.
    pub(crate) done: u64,
    /// How many words were known.
    pub(crate) known: u64,
    /// What the least paths cost.
    pub(crate) cost: u64,
    /// In how many symbols the segments differ from those that were given.
    pub(crate) moved: u64,
    ghost known_small: { known ≤ 312 * done },
    ghost cost_small: { cost ≤ 16720224624 * done },
    ghost moved_small: { moved ≤ 259584 * done },
}

impl Numbers {
    ghost use Rattle.dtx_refine.specs.Refiner.{IsAdded};

    /// Those of no field.
    pub(crate) fn new() -> Numbers
        ensures done { result.done ≡ 0 }
        ensures known { result.known ≡ 0 }
        ensures cost { result.cost ≡ 0 }
        ensures moved { result.moved ≡ 0 }
    {
        Numbers {
            done: 0,
            known: 0,
            cost: 0,
            moved: 0,
        }
    }

    /// Adds those of a field that had all rounds.
    pub(crate) fn add(&mut self, field: &Field)
        requires { self.old.done < MOST_FIELDS }
        ensures { IsAdded field.now self.old self.new }
    {
        self.done += 1;
        self.known += field.known_words();
        self.cost += field.cost();
        self.moved += field.moved();
    }
}
