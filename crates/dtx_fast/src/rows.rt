//! Tables that give a polynomial's values at the powers of an element.

ghost use Rattle.std.specs.Prelude.{◌≡◌, ℕ, ◌+◌, ◌*◌, ◌/◌, ◌%◌, ◌<◌, ◌≤◌, []};
ghost use Rattle.std.specs.Prelude.{length, slice_index, slice_index_or};
ghost use Rattle.std.specs.Int.RustNames.{bit_xor};
ghost use Rattle.dtx_galois.specs.Field.{mul, pow};
ghost use Rattle.dtx_fast.specs.Recurrence.{walked};
ghost use Rattle.dtx_fast.specs.Rows.{half_byte};

use dtx_galois::Gf;

/// How many values a byte's lower half has, and its upper half.
const HALF: usize = 16;

/// How many rows there are for a coefficient.
pub const HALVES: usize = 2 * HALF;

/// A table of `R` rows. For each value of each half of a coefficient it has what this adds to a polynomial's values at
/// the first `W` powers of `base`.
#[derive(Drop)]
pub struct Rows<const W: usize, const R: usize> {
    pub base: Gf,
    rows: [[u8; W]; R],
    ghost hold: { (j q : ℕ) → j < R → q < W → slice_index (slice_index_or rows j []) q
        ≡ mul (half_byte (j % 32)) (pow (pow base.0 q) (j / 32)) },
}

impl<const W: usize, const R: usize> Rows<W, R> {
    /// The rows of the powers of an element.
    pub fn new(base: Gf) -> Self
        requires few { W ≤ 256 }
        requires rows { R ≤ 1024 }
        ensures { result.base.0 ≡ base.0 }
    {
        let mut rows = [[0; W]; R];
        for j in 0..R {
            rows[j] = nth_row(base, j);
        }
        Rows { base, rows }
    }

    /// The values of the polynomial with these coefficients, the lowest first.
    pub fn walk(&self, coefficients: &[u8]) -> [u8; W]
        requires { 32 * length coefficients.now ≤ R }
        ensures long { length result ≡ W }
        ensures values { (q : ℕ) → q < W → slice_index result q
            ≡ walked (length coefficients.now) (slice_index coefficients.now) (pow self.now.base.0 q) }
    {
        let mut values = [0; W];
        for k in 0..coefficients.len() {
            let byte = coefficients[k] as usize;
            add_rows(
                &mut values,
                &self.rows[HALVES * k + byte % HALF],
                &self.rows[HALVES * k + HALF + byte / HALF],
            );
        }
        values
    }
}

/// Adds two rows to the values.
#[inline(always)]
fn add_rows<const W: usize>(values: &mut [u8; W], low: &[u8; W], high: &[u8; W])
    ensures long { length values.new ≡ W }
    ensures sums { (q : ℕ) → q < W → slice_index values.new q
        ≡ bit_xor (slice_index values.old q) (bit_xor (slice_index low.now q) (slice_index high.now q)) }
{
    for q in 0..W {
        values[q] ^= low[q] ^ high[q];
    }
}

/// Row j: the products of its half's byte with the powers.
fn nth_row<const W: usize>(base: Gf, j: usize) -> [u8; W]
    requires few { W ≤ 256 }
    requires small { j < 1024 }
    ensures long { length result ≡ W }
    ensures products { (q : ℕ) → q < W
        → slice_index result q ≡ mul (half_byte (j % 32)) (pow (pow base.0 q) (j / 32)) }
{
    let byte = Gf(half_byte(j % HALVES));
    let mut row = [0; W];
    for q in 0..W {
        row[q] = byte.mul(base.pow(q as u32).pow((j / HALVES) as u32)).0;
    }
    row
}

/// The byte that a row is for.
#[tactic(auto, unfolding(crate::specs::Rows::half_byte))]
fn half_byte(row: usize) -> u8
    requires { row < HALVES }
    ensures { result ≡ half_byte row }
{
    if row < HALF {
        row as u8
    } else {
        (HALF * (row - HALF)) as u8
    }
}
