//! The laws on which correctors rest.

ghost use Rattle.std.specs.Prelude.{◌≡◌, ◌≢◌, ℕ, List, ◌+◌, ◌-◌, ◌*◌, ◌<◌, ◌≤◌, length, slice_index};
ghost use Rattle.dtx_galois.specs.Field.{AreBytes, pow, value};
ghost use Rattle.dtx_laws.specs.Codeword.{IsCodeword, IsCorrection};
ghost use Rattle.dtx_laws.specs.Words.{IsCorrected, IsLeft, codeword};
ghost use Rattle.dtx_laws.specs.Locator.{Annuls, low_value};

/// A locator vanishes wherever a word differs from its correction. Let `n - k` be `2 * t`, and let syndrome `S j` be
/// the word's value at the power `j` of α. Let at most `t + 1` coefficients give
/// `locator[0] * S i + locator[1] * S (i + 1) + .. = 0` for each `i` below `t`. Then their polynomial, the lowest
/// first, is 0 at the power of α of each such place.
pub fn kernel()
    ensures { (n k t : ℕ) (word code locator : List ℕ) → n ≤ 255 → n - k ≡ 2 * t → AreBytes word → length word ≡ n
        → IsCorrection n k word code → AreBytes locator → length locator ≤ t + 1
        → Annuls locator (λ i. value word (pow 2 i)) t → (p : ℕ) → p < n → slice_index word p ≢ slice_index code p
        → low_value locator (pow 2 (n - 1 - p)) ≡ 0 }
{}

/// A word has at most one answer: two correctors give the same word and number, or both leave the word. A codeword is
/// corrected to itself, and no place changes. So is each codeword that an encoder made.
pub fn one_answer()
    ensures same { (n k : ℕ) (word a b : List ℕ) (d e : ℕ) → n ≤ 255 → length word ≡ n → IsCorrected n k word a d
        → IsCorrected n k word b e → (a ≡ b) × (d ≡ e) }
    ensures either { (n k : ℕ) (word a b : List ℕ) (e : ℕ) → IsCorrected n k word a e → IsLeft n k word b → ⊥ }
    ensures codeword { (n k : ℕ) (word a : List ℕ) (e : ℕ) → n ≤ 255 → IsCodeword n k word → IsCorrected n k word a e
        → (a ≡ word) × (e ≡ 0) }
    ensures never_left { (n k : ℕ) (word a : List ℕ) → IsCodeword n k word → IsLeft n k word a → ⊥ }
    ensures encoded { (n k : ℕ) (head a : List ℕ) (e : ℕ) → n ≤ 255 → k < n → length head ≡ k → AreBytes head
        → IsCorrected n k (codeword n k head) a e → (a ≡ codeword n k head) × (e ≡ 0) }
    ensures encoded_never_left { (n k : ℕ) (head a : List ℕ) → k < n → length head ≡ k → AreBytes head
        → IsLeft n k (codeword n k head) a → ⊥ }
{}
