//! The laws of recurrences.

ghost use Rattle.std.specs.Prelude.{◌≡◌, ◌≢◌, ℕ, List, ◌+◌, ◌-◌, ◌*◌, ◌<◌, ◌≤◌, length, slice_index};
ghost use Rattle.dtx_galois.specs.Field.{AreBytes, pow, value};
ghost use Rattle.dtx_laws.specs.Codeword.{IsCorrection, distance};
ghost use Rattle.dtx_fast.specs.Recurrence.{IsLeast, IsRecurrence, discrepancy, repaired_at};

/// Let a recurrence of order `l` give the first `n` terms and not the next one. A recurrence that gives this one too
/// has at least the order `n + 1 - l`.
pub fn none_shorter()
    ensures { (n l k : ℕ) (s c b : ℕ → ℕ) → IsRecurrence n l s c → l ≤ n → discrepancy (l + 1) c s n ≢ 0
        → IsRecurrence (n + 1) k s b → n + 1 ≤ l + k }
{}

/// Let `l` be at most the order of each recurrence of a word's syndromes. Then `l` is at most the number of wrong
/// places.
pub fn no_longer_than_wrong_places()
    ensures { (n k m l : ℕ) (word code : List ℕ) (s : ℕ → ℕ) → length word ≡ n → IsCorrection n k word code → m ≤ n - k
        → ((j : ℕ) → j < m → s j ≡ value word (pow 2 j)) → IsLeast m l s
        → l ≤ distance word code }
{}

/// Let a word have a correction, and take a recurrence of its syndromes whose order is at most the number of wrong
/// places. The repair by this recurrence gives the correction.
pub fn repaired()
    ensures { (n k t l : ℕ) (word code new : List ℕ) (s c : ℕ → ℕ) → n ≤ 255 → n - k ≡ 2 * t → AreBytes word
        → length word ≡ n → IsCorrection n k word code → ((j : ℕ) → c j < 256)
        → ((i : ℕ) → i < 2 * t → s i ≡ value word (pow 2 i)) → IsRecurrence (2 * t) l s c → l ≤ distance word code
        → length new ≡ n → ((p : ℕ) → p < n → slice_index new p ≡ repaired_at n l c s word p) → new ≡ code }
{}
