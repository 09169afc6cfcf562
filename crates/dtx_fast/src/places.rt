//! Tables that give a recurrence's values at all places of a word, block by block.

ghost use Rattle.std.specs.Prelude.{◌≡◌, ℕ, ◌+◌, ◌*◌, ◌<◌, ◌≤◌, length, slice_index};
ghost use Rattle.dtx_galois.specs.Field.{mul, pow};
ghost use Rattle.dtx_fast.specs.Recurrence.{walked};
ghost use Rattle.dtx_fast.specs.declared.places.TheConstants.{BLOCK, COEFFICIENTS, MOST_ORDER};
ghost use Rattle.dtx_fast.specs.declared.recurrence.TheConstants.{WIDTH};

use crate::recurrence::{Recurrence, WIDTH, copied};
use crate::rows::{HALVES, Rows};
use dtx_galois::{ALPHA, Gf};
use dtx_laws::correcting::ROOM;

/// The greatest order of a recurrence for which there are rows.
pub const MOST_ORDER: usize = 10;

/// How many coefficients a recurrence of this order has.
const COEFFICIENTS: usize = MOST_ORDER + 1;

/// How many places a block has. A row has one entry for each of them.
const BLOCK: usize = 32;

/// How many rows there are.
const PLACE_ROWS: usize = HALVES * COEFFICIENTS;

/// The rows of the first block's places, 11 kB. `steps` moves each coefficient on by a block, so that the same rows
/// give the next block.
#[derive(Drop)]
pub struct Places {
    rows: Rows<BLOCK, PLACE_ROWS>,
    steps: [u8; COEFFICIENTS],
    ghost inverses: { rows.base.0 ≡ pow 2 254 },
    ghost moves: { (k : ℕ) → k < COEFFICIENTS → slice_index steps k ≡ pow (pow (pow 2 254) BLOCK) k },
    ghost long: { length steps ≡ COEFFICIENTS },
}

impl Places {
    /// The rows, which are the same for each code.
    pub fn new() -> Self {
        let inverse = ALPHA.pow(254);
        Places {
            rows: Rows::new(inverse),
            steps: powers_of(inverse.pow(BLOCK as u32)),
        }
    }

    /// The values of the recurrence's polynomial, the first coefficient lowest, at the powers of the inverse of α.
    pub fn walk(&self, found: &Recurrence) -> [u8; ROOM]
        requires { found.now.order ≤ MOST_ORDER }
        ensures long { length result ≡ ROOM }
        ensures values { (q : ℕ) → q < ROOM → slice_index result q
            ≡ walked (found.now.order + 1) (slice_index found.now.coefficients) (pow (pow 2 254) q) }
    {
        let mut values = [0; ROOM];
        let mut coefficients = copied(&found.coefficients[..]);
        for block in 0..ROOM / BLOCK {
            let next = self.rows.walk(&coefficients[..found.order + 1]);
            put(&mut values, BLOCK * block, &next);
            self.move_on(&mut coefficients, found.order + 1);
        }
        values
    }

    /// Moves the first `count` coefficients on by a block.
    #[inline(always)]
    fn move_on(&self, coefficients: &mut [u8; WIDTH], count: usize)
        requires { count ≤ COEFFICIENTS }
        ensures long { length coefficients.new ≡ WIDTH }
        ensures moved { (k : ℕ) → k < count → slice_index coefficients.new k
            ≡ mul (slice_index coefficients.old k) (pow (pow (pow 2 254) BLOCK) k) }
    {
        for k in 0..count {
            coefficients[k] = Gf(coefficients[k]).mul(Gf(self.steps[k])).0;
        }
    }
}

/// The first powers of an element.
fn powers_of(element: Gf) -> [u8; COEFFICIENTS]
    ensures long { length result ≡ COEFFICIENTS }
    ensures powers { (k : ℕ) → k < COEFFICIENTS → slice_index result k ≡ pow element.0 k }
{
    let mut powers = [0; COEFFICIENTS];
    for k in 0..COEFFICIENTS {
        powers[k] = element.pow(k as u32).0;
    }
    powers
}

/// Copies a block's values to index `start` and behind.
#[inline(always)]
fn put(values: &mut [u8; ROOM], start: usize, block: &[u8; BLOCK])
    requires { start + BLOCK ≤ ROOM }
    ensures long { length values.new ≡ ROOM }
    ensures before { (q : ℕ) → q < start → slice_index values.new q ≡ slice_index values.old q }
    ensures block { (q : ℕ) → q < BLOCK → slice_index values.new (start + q) ≡ slice_index block.now q }
{
    for i in 0..BLOCK {
        values[start + i] = block[i];
    }
}
