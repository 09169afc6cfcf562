//! One step of elimination: the kept vectors come to solve one more equation, and at most one of them is given up.

ghost use Rattle.std.specs.Prelude.{◌≡◌, ◌≢◌, ℕ, ◌+◌, ◌<◌, ◌≤◌, [], true, IfNone, IfSome, length, slice_index};
ghost use Rattle.std.specs.Prelude.{slice_index_or, take};
ghost use Rattle.dtx_galois.specs.Field.{mul, pow, scaled, sums};
ghost use Rattle.dtx_laws.specs.Locator.{combination, is_marked};
ghost use Rattle.dtx_correct.specs.Elimination.{Solves, count, reduced, vector};

use crate::locator::WIDTH;
use dtx_galois::Gf;
use dtx_laws::correcting::ROOM;

/// Makes the kept vectors solve one more equation. At most one of them is given up for it.
pub fn solve_one(
    vectors: &mut [[u8; WIDTH]; WIDTH],
    kept: &mut [bool; WIDTH],
    width: usize,
    syndromes: &[u8; ROOM],
    equation: usize,
)
    requires few { width ≤ WIDTH }
    requires below { width + equation ≤ ROOM }
    ensures long { (length vectors.new ≡ WIDTH) × (length kept.new ≡ WIDTH) }
    ensures solves { Solves width equation (slice_index syndromes.now) (is_marked kept.old) (vector width vectors.old)
        → Solves width (equation + 1) (slice_index syndromes.now) (is_marked kept.new) (vector width vectors.new) }
    ensures count { count (is_marked kept.old) width ≤ count (is_marked kept.new) width + 1 }
{
    if let Some(pivot) = find_pivot(vectors, kept, width, syndromes, equation) {
        reduce(vectors, width, syndromes, equation, pivot);
        kept[pivot] = false;
    }
}

/// A kept vector that doesn't solve the equation, if there is one.
fn find_pivot(
    vectors: &[[u8; WIDTH]; WIDTH],
    kept: &[bool; WIDTH],
    width: usize,
    syndromes: &[u8; ROOM],
    equation: usize,
) -> Option<usize>
    requires few { width ≤ WIDTH }
    requires below { width + equation ≤ ROOM }
    ensures some { IfSome result (λ p. (p < width) × (is_marked kept.now p ≡ true)
        × (combination (vector width vectors.now p) (slice_index syndromes.now) equation ≢ 0)) }
    ensures none { IfNone result ((k : ℕ) → k < width → is_marked kept.now k ≡ true
        → combination (vector width vectors.now k) (slice_index syndromes.now) equation ≡ 0) }
{
    for k in 0..width {
        if kept[k] && combine(&vectors[k][..width], syndromes, equation).0 != 0 {
            return Some(k);
        }
    }
    None
}

/// Adds to each vector the multiple of the pivot vector that makes it solve the equation. The power 254 of an element
/// is its inverse.
fn reduce(
    vectors: &mut [[u8; WIDTH]; WIDTH],
    width: usize,
    syndromes: &[u8; ROOM],
    equation: usize,
    pivot: usize,
)
    requires few { width ≤ WIDTH }
    requires below { width + equation ≤ ROOM }
    requires some { pivot < width }
    ensures long { length vectors.new ≡ WIDTH }
    ensures vectors { (k : ℕ) → k < width
        → vector width vectors.new k ≡ reduced (slice_index syndromes.now) equation (vector width vectors.old) pivot
        (pow (combination (vector width vectors.old pivot) (slice_index syndromes.now) equation) 254) k }
{
    let chosen = copied(vectors, pivot);
    let inverse = combine(&chosen[..width], syndromes, equation).pow(254);
    for k in 0..width {
        let factor = combine(&vectors[k][..width], syndromes, equation).mul(inverse);
        add_multiple(&mut vectors[k], width, &chosen, factor);
    }
}

/// A copy of vector `k`.
fn copied(vectors: &[[u8; WIDTH]; WIDTH], k: usize) -> [u8; WIDTH]
    requires { k < WIDTH }
    ensures { result ≡ slice_index_or vectors.now k [] }
{
    vectors[k]
}

/// Adds `chosen` times `factor` to a vector, in the first `width` entries.
fn add_multiple(vector: &mut [u8; WIDTH], width: usize, chosen: &[u8; WIDTH], factor: Gf)
    requires { width ≤ WIDTH }
    ensures long { length vector.new ≡ WIDTH }
    ensures vector { take width vector.new
        ≡ sums (take width vector.old) (scaled factor.0 (take width chosen.now)) }
{
    add_scaled(&mut vector[..width], &chosen[..width], factor);
}

/// The left side of an equation: the sum of each coefficient times the syndrome at its place from `equation` on.
fn combine(coefficients: &[u8], syndromes: &[u8; ROOM], equation: usize) -> Gf
    requires { length coefficients.now + equation ≤ ROOM }
    ensures { result.0 ≡ combination coefficients.now (slice_index syndromes.now) equation }
{
    let mut sum = Gf(0);
    for i in (0..coefficients.len()).rev() {
        sum = Gf(coefficients[i])
            .mul(Gf(syndromes[equation + i]))
            .add(sum);
    }
    sum
}

/// Adds `other` times `factor` to a vector.
fn add_scaled(vector: &mut [u8], other: &[u8], factor: Gf)
    requires { length vector.old ≡ length other.now }
    ensures { vector.new ≡ sums vector.old (scaled factor.0 other.now) }
{
    for i in 0..other.len() {
        vector[i] ^= factor.mul(Gf(other[i])).0;
    }
}
