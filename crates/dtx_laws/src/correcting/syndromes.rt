//! The syndromes of a word that is no codeword.

ghost use Rattle.std.specs.Prelude.{◌≡◌, ◌≤◌, length};
ghost use Rattle.dtx_galois.specs.Field.{value, sums};
ghost use Rattle.dtx_laws.specs.Codeword.{AreSyndromes};

use crate::correcting::ROOM;
use dtx_galois::{ALPHA, Gf};

/// The syndromes of a word, as many as it has parity bytes. `parity` has the word's own parity bytes, and `right` those
/// that its data have. The sums of the two have the word's syndromes, since those of a codeword are 0.
pub fn syndromes_of(parity: &[u8], right: &[u8]) -> [u8; ROOM]
    requires same { length parity.now ≡ length right.now }
    requires few { length parity.now ≤ 255 }
    ensures long { length result ≡ ROOM }
    ensures values { AreSyndromes (length parity.now) (sums parity.now right.now) result }
{
    let mut syndromes = [0; ROOM];
    for i in 0..parity.len() {
        syndromes[i] = value_of_sum(parity, right, ALPHA.pow(i as u32)).0;
    }
    syndromes
}

/// The value at `at` of the sum of two words.
fn value_of_sum(word: &[u8], other: &[u8], at: Gf) -> Gf
    requires { length word.now ≡ length other.now }
    ensures { result.0 ≡ value (sums word.now other.now) at.0 }
{
    let mut sum = Gf(0);
    for i in 0..word.len() {
        sum = sum.mul(at).add(Gf(word[i] ^ other[i]));
    }
    sum
}
