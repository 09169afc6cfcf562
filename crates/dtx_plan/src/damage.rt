// The damage to a file.
ghost use Rattle.std.specs.Prelude.{◌≡◌, ◌<◌, [], length, slice_get, Some};

use std::alloc::Global;
use std::marker::Model;

/// One entry of damage: `put` replaces each of the `count` bytes from offset `at` on. In a symbol file a byte is a
/// symbol.
#[derive(Clone, Copy)]
pub struct Damage {
    pub at: u64,
    pub count: u64,
    pub put: i8,
}

/// The entries of damage. Contracts see the value as the list of them.
#[derive(Drop)]
pub struct Damages {
    pub(crate) all: Vec<Damage>,
}

impl Model for Damages {
    ghost use Rattle.std.specs.Prelude.{List};
    ghost use Rattle.dtx_plan.specs.declared.damage.Damage.{Damage};

    ghost Value = { List Damage };

    ghost view = { λ d. d.all.items };
}

impl Damages {
    /// No entry.
    pub fn none(alloc: Global) -> Damages
        ensures { result ≡ [] }
    {
        Damages {
            all: Vec::new(alloc),
        }
    }

    /// How many entries there are.
    pub fn len(&self) -> usize
        ensures { result ≡ length self.now }
    {
        self.all.len()
    }

    /// The entry of that number, counted from 0.
    pub fn get(&self, i: usize) -> Damage
        requires { i < length self.now }
        ensures { slice_get self.now i ≡ Some result }
    {
        self.all[i]
    }
}
