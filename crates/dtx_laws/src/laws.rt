//! Laws of codewords, for every `n` and `k`. They are laws of the definitions, so they hold of every encoder and
//! corrector.

pub mod gathering;
pub mod interleaving;
pub mod whitening;

ghost use Rattle.std.specs.Prelude.{◌≡◌, ◌⊎◌, ℕ, List, Some, None, ◌+◌, ◌-◌, ◌<◌, ◌≤◌, take, length};
ghost use Rattle.dtx_galois.specs.Field.{AreBytes};
ghost use Rattle.dtx_laws.specs.Codeword.{IsCodeword, IsCorrection, distance};
ghost use Rattle.dtx_laws.specs.Words.{codeword, correction};

mod errors;

pub use errors::{kernel, one_answer};

/// Some codeword begins with any `k` bytes of data.
pub fn some_codeword()
    ensures { (n k : ℕ) (head : List ℕ) → k < n → length head ≡ k → AreBytes head
        → (word : List ℕ) × IsCodeword n k word × (take k word ≡ head) }
{}

/// At most one codeword begins with given data.
pub fn one_codeword()
    ensures { (n k : ℕ) (a b : List ℕ) → n ≤ 255 → IsCodeword n k a → IsCodeword n k b → take k a ≡ take k b → a ≡ b }
{}

/// `codeword` gives a codeword that begins with the data, and it is the only one.
pub fn the_codeword()
    ensures is { (n k : ℕ) (head : List ℕ) → k < n → length head ≡ k → AreBytes head
        → IsCodeword n k (codeword n k head) }
    ensures begins { (n k : ℕ) (head : List ℕ) → length head ≡ k → take k (codeword n k head) ≡ head }
    ensures only { (n k : ℕ) (head word : List ℕ) → n ≤ 255 → k < n → length head ≡ k → AreBytes head
        → IsCodeword n k word → take k word ≡ head → word ≡ codeword n k head }
    ensures long { (n k : ℕ) (head : List ℕ) → length (codeword n k head) ≡ length head + (n - k) }
{}

/// Two different codewords differ in at least `n - k + 1` places.
pub fn apart()
    ensures { (n k : ℕ) (a b : List ℕ) → n ≤ 255 → IsCodeword n k a → IsCodeword n k b
        → (a ≡ b) ⊎ (n - k + 1 ≤ distance a b) }
{}

/// A word has at most one correction.
pub fn one_correction()
    ensures { (n k : ℕ) (word a b : List ℕ) → n ≤ 255 → length word ≡ n → IsCorrection n k word a
        → IsCorrection n k word b → a ≡ b }
{}

/// `correction` gives a correction exactly where there is one, and it is the only one.
pub fn the_correction()
    ensures is { (n k : ℕ) (word code : List ℕ) → correction n k word ≡ Some code → IsCorrection n k word code }
    ensures only { (n k : ℕ) (word code : List ℕ) → n ≤ 255 → length word ≡ n → IsCorrection n k word code
        → correction n k word ≡ Some code }
    ensures none { (n k : ℕ) (word : List ℕ) → correction n k word ≡ None → (code : List ℕ) → IsCorrection n k word code
        → ⊥ }
{}

/// A codeword is its own correction, which changes no place.
pub fn codeword_corrected()
    ensures itself { (n k : ℕ) (word : List ℕ) → IsCodeword n k word → IsCorrection n k word word }
    ensures unchanged { (word : List ℕ) → distance word word ≡ 0 }
{}
