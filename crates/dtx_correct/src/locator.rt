//! A locator of wrong places, by elimination.

ghost use Rattle.std.specs.Prelude.{◌≡◌, ℕ, ◌+◌, ◌<◌, ◌≤◌, [], true, length, slice_index, slice_index_or, take};
ghost use Rattle.dtx_correct.specs.Elimination.{IsUnit, count};
ghost use Rattle.dtx_laws.specs.Locator.{IsLocator, is_marked};

use crate::elimination::solve_one;
use dtx_laws::correcting::ROOM;

/// The number of coefficients that a vector has room for: more than half as many as a word can have bytes.
pub const WIDTH: usize = 128;

/// The coefficients of a locator that annuls the first `equations` places. They are the first `equations + 1` entries;
/// the others are unspecified.
pub fn find_locator(syndromes: &[u8; ROOM], equations: usize) -> [u8; WIDTH]
    requires { equations < WIDTH }
    ensures long { length (take (equations + 1) result) ≡ equations + 1 }
    ensures locator { IsLocator equations (slice_index syndromes.now) (take (equations + 1) result) }
{
    let width = equations + 1;
    let mut vectors = units(width);
    let mut kept = [true; WIDTH];
    for equation in 0..equations {
        solve_one(&mut vectors, &mut kept, width, syndromes, equation);
    }
    first_kept(&vectors, &kept, width)
}

/// The first kept vector.
fn first_kept(vectors: &[[u8; WIDTH]; WIDTH], kept: &[bool; WIDTH], width: usize) -> [u8; WIDTH]
    requires few { width ≤ WIDTH }
    requires some { 0 < count (is_marked kept.now) width }
    ensures { (k : ℕ) × (k < width) × (is_marked kept.now k ≡ true) × (result ≡ slice_index_or vectors.now k []) }
{
    for k in 0..width {
        if kept[k] {
            return vectors[k];
        }
    }
    [0; WIDTH]
}

/// The first `width` unit vectors.
fn units(width: usize) -> [[u8; WIDTH]; WIDTH]
    requires { width ≤ WIDTH }
    ensures units { (k : ℕ) → k < width → IsUnit k (slice_index_or result k []) }
    ensures long { length result ≡ WIDTH }
{
    let mut vectors = [[0; WIDTH]; WIDTH];
    for k in 0..width {
        vectors[k] = unit(k);
    }
    vectors
}

/// The vector with a 1 at place k.
fn unit(k: usize) -> [u8; WIDTH]
    requires { k < WIDTH }
    ensures { IsUnit k result }
{
    let mut vector = [0; WIDTH];
    vector[k] = 1;
    vector
}
