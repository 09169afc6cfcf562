// Damage that reaches past the end of a file (the profile's own).
ghost use Rattle.std.specs.Prelude.{◌≡◌};
ghost use Rattle.dtx_plan.specs.Sound.{AreDamages};
ghost use Rattle.dtx_recipes.specs.Hurt.{ends_past, first_past};

use dtx_plan::{Damage, Damages};

/// The number of the first entry of damage that ends past the end of a file of `bytes` bytes.
pub fn first_past(damage: &Damages, bytes: u64) -> Option<u32>
    requires { AreDamages damage.now }
    ensures { result ≡ first_past damage.now bytes }
{
    for i in 0..damage.len() {
        if ends_past(&damage.get(i), bytes) {
            return Some(i as u32);
        }
    }
    None
}

/// Whether the entry ends past the end of a file of `bytes` bytes.
fn ends_past(entry: &Damage, bytes: u64) -> bool
    ensures { result ≡ ends_past bytes entry.now }
{
    entry.at > bytes || entry.count > bytes - entry.at
}
