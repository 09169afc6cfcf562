// A whole number among the words.
ghost use Rattle.std.specs.Prelude.{◌≡◌, ◌≤◌, ◌↔◌, ℕ, Some, IsTrue, decimal};
ghost use Rattle.dtx_words.specs.Fitting.{number_in, number_within, BeginsPlain};

/// Reads the word as a decimal number, without sign and without a leading zero unless it is `0`. Gives `None` where the
/// word isn't such a number, or is one above `most`.
pub fn number_up_to(most: u64, word: &str) -> Option<u64>
    ensures number { result ≡ number_in most word.now }
    ensures spelled { (n : ℕ) → (result ≡ Some n) ↔ ((n ≤ most) × (word.now ≡ decimal n)) }
{
    if !begins_plain(word.as_bytes()) {
        return None;
    }
    match word.parse::<u64>() {
        Ok(number) if number <= most => Some(number),
        _ => None,
    }
}

/// Reads the word as `number_up_to` does. Gives `None` also where the number is below `least`.
pub fn number_within(least: u64, most: u64, word: &str) -> Option<u64>
    ensures { result ≡ number_within least most word.now }
{
    match number_up_to(most, word) {
        Some(number) if number >= least => Some(number),
        _ => None,
    }
}

/// Whether the word is `0`, or begins with a digit from 1 to 9.
fn begins_plain(word: &[u8]) -> bool
    ensures { IsTrue result ↔ BeginsPlain word.now }
{
    matches!(word, [b'0'] | [b'1'..=b'9', ..])
}
