//! The values of the errors at the suspect places. They are those that `dtx_laws::correcting::patch` gives. The number
//! of products grows with the square of the number of suspect places, and there with its cube.

ghost use Rattle.std.specs.Prelude.{◌≡◌, ℕ, ◌+◌, ◌<◌, ◌≤◌, Bool, [], true, length, slice_index};
ghost use Rattle.std.specs.Int.RustNames.{bit_xor};
ghost use Rattle.dtx_galois.specs.Field.{mul};
ghost use Rattle.dtx_laws.specs.Locator.{error_at, others, patched_at, is_marked};
ghost use Rattle.dtx_laws.specs.declared.correcting.TheConstants.{ROOM};
ghost use Rattle.dtx_fast.specs.Recurrence.{connection};

use dtx_fast::error_value;
use dtx_galois::Gf;
use dtx_laws::correcting::{ROOM, power_at};

/// Takes the errors at the suspect places away from a word.
pub fn patch(word: &mut [u8], suspects: &[bool; ROOM], syndromes: &[u8; ROOM])
    requires { length word.old ≤ 255 }
    ensures long { length word.new ≡ length word.old }
    ensures patched { (p : ℕ) → p < length word.old → slice_index word.new p ≡ patched_at (length word.old)
        (is_marked suspects.now) (slice_index syndromes.now) word.old p }
{
    let len = word.len();
    let product = product_of(suspects, len);
    for place in 0..len {
        if suspects[place] {
            word[place] ^= error_at(&product, syndromes, len, place).0;
        }
    }
}

/// The coefficients of a product of factors `X - y`, the highest first.
#[derive(Drop)]
struct Product {
    coefficients: [u8; ROOM],
    degree: usize,
    ghost long: { length coefficients ≡ ROOM },
    ghost room: { degree < ROOM },
}

/// The product of the factors `X - y`, where y is the power at each suspect place of a word of `len` bytes.
fn product_of(suspects: &[bool; ROOM], len: usize) -> Product
    requires { len ≤ 255 }
    ensures degree { result.degree ≡ length (others len (is_marked suspects.now) len len) }
    ensures product { (k : ℕ)
        → slice_index result.coefficients k ≡ connection (others len (is_marked suspects.now) len len) k }
{
    let mut coefficients = one();
    let mut degree = 0;
    for place in 0..len {
        if suspects[place] {
            multiply(&mut coefficients, degree, power_at(len, place));
            degree += 1;
        }
    }
    Product {
        coefficients,
        degree,
    }
}

/// The product of no factors.
fn one() -> [u8; ROOM]
    ensures long { length result ≡ ROOM }
    ensures product { (k : ℕ) → slice_index result k ≡ connection [] k }
{
    let mut coefficients = [0; ROOM];
    coefficients[0] = 1;
    coefficients
}

/// Multiplies a polynomial of degree `degree` by `X - y`, where y is `power`.
fn multiply(coefficients: &mut [u8; ROOM], degree: usize, power: Gf)
    requires { degree + 1 < ROOM }
    ensures long { length coefficients.new ≡ ROOM }
    ensures first { slice_index coefficients.new 0 ≡ slice_index coefficients.old 0 }
    ensures next { (k : ℕ) → k ≤ degree → slice_index coefficients.new (k + 1)
        ≡ bit_xor (slice_index coefficients.old (k + 1)) (mul power.0 (slice_index coefficients.old k)) }
    ensures behind { (k : ℕ) → degree < k
        → slice_index coefficients.new (k + 1) ≡ slice_index coefficients.old (k + 1) }
{
    for k in (0..degree + 1).rev() {
        coefficients[k + 1] ^= power.mul(Gf(coefficients[k])).0;
    }
}

/// The value of the error at a suspect place. `product` is that of all suspect places.
fn error_at(product: &Product, syndromes: &[u8; ROOM], len: usize, place: usize) -> Gf
    requires few { len ≤ 255 }
    requires some { place < len }
    ensures { (suspect : ℕ → Bool) → suspect place ≡ true
        → product.now.degree ≡ length (others len suspect len len)
        → ((k : ℕ) → slice_index product.now.coefficients k ≡ connection (others len suspect len len) k)
        → result.0 ≡ error_at len suspect (slice_index syndromes.now) place }
{
    let power = power_at(len, place);
    error_value(&product.coefficients[..], product.degree, syndromes, power)
}
