// The numbers of a line.
ghost use Rattle.std.specs.Prelude.{◌≡◌, ◌≤◌, length};
ghost use Rattle.dtx_meaning.specs.declared.numbers.TheConstants.{MOST_NUMBERS};

use std::marker::Model;

/// The most numbers that a line has.
pub const MOST_NUMBERS: usize = 7;

/// The numbers of a line, in their order. Contracts see their list.
#[derive(Clone, Copy)]
pub struct Numbers {
    items: [u64; MOST_NUMBERS],
    count: usize,
}

impl Model for Numbers {
    ghost use Rattle.std.specs.Prelude.{ℕ, ◌≡◌, ◌≤◌, List, length, take};

    ghost Value = { List ℕ };

    ghost use Rattle.dtx_meaning.specs.Status.{filled};

    ghost view = { λ n. take n.count n.items };

    // All of the list is behind the view, so that the value can be copied.
    ghost invariant = { λ n. (length (take n.count n.items) ≡ n.count) × (n.items ≡ filled (take n.count n.items)) };

    ghost inverse = { λ numbers. record { items = filled numbers; count = length numbers } };
}

impl Numbers {
    /// These numbers.
    pub(crate) fn new(numbers: &[u64]) -> Numbers
        requires { length numbers.now ≤ MOST_NUMBERS }
        ensures { result ≡ numbers.now }
    {
        let mut items = [0; MOST_NUMBERS];
        items[..numbers.len()].copy_from_slice(numbers);
        Numbers {
            items,
            count: numbers.len(),
        }
    }

    /// The numbers.
    pub fn as_slice(&self) -> &[u64]
        ensures { result.now ≡ self.now }
    {
        &self.items[..self.count]
    }
}
