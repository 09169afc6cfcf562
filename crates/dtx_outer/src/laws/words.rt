//! Laws of the words of a run, over the definitions. They hold of calls of `Inner::take`, whichever parts the `Inner`
//! has.

ghost use Rattle.std.specs.Prelude.{◌≡◌, ◌⊎◌, ℕ, ◌+◌, ◌-◌, ◌*◌, ◌<◌, ◌≤◌, ◌++◌, List, Some, None, length, take, drop};
ghost use Rattle.std.specs.Prelude.{slice_index};
ghost use Rattle.dtx_laws.specs.Codeword.{distance};
ghost use Rattle.dtx_laws.specs.Interleaving.{interleaved, IsInterleavedBehind};
ghost use Rattle.dtx_laws.specs.Whitening.{whitened};
ghost use Rattle.dtx_laws.specs.Words.{correction};
ghost use Rattle.dtx_outer.specs.Inner.{Kept, StandsFor, waiting, codeword_byte_place, word_at, IsComplete, IsGood};
ghost use Rattle.dtx_outer.specs.Inner.{IsBad};

/// `waiting n b m` is the least number of blocks of `n` bytes that cover the delay of `b * m * (b - 1)` bytes. For the
/// outer coding of ATSC A/53 Part 2 it is 52.
pub fn waits()
    ensures covers { (n b m : ℕ) → 0 < n → b * m * (b - 1) ≤ n * waiting n b m }
    ensures least { (n b m q : ℕ) → 0 < n → b * m * (b - 1) ≤ n * q → waiting n b m ≤ q }
    ensures air { waiting 207 52 4 ≡ 52 }
{}

/// There are two cases for each run. Either it has fewer blocks so far than give no packet, or the next block gives
/// packet `j` of the run.
pub fn either()
    ensures { (n k b m : ℕ) (inner : Kept) (y : List ℕ) → 0 < n → StandsFor n k b m inner y
        → (length y < n * waiting n b m) ⊎ ((j : ℕ) × (length y ≡ n * (waiting n b m + j))) }
{}

/// A word, byte by byte.
pub fn the_word()
    ensures long { (n b m : ℕ) (y : List ℕ) (k : ℕ) → length (word_at n b m y k) ≡ n }
    ensures at { (n b m : ℕ) (y : List ℕ) (k j : ℕ) → j < n
        → slice_index (word_at n b m y k) j ≡ slice_index y (codeword_byte_place b m (n * k + j)) }
{}

/// A word whose bytes have all come stays when more bytes come. Where a block has a byte of every branch, one block
/// more, of any content, is enough for the block that gives the word. When that block has come, all bytes of its word
/// have.
pub fn complete()
    ensures stays { (n b m : ℕ) (y z : List ℕ) (k : ℕ) → IsComplete n b m (length y) k
        → word_at n b m (y ++ z) k ≡ word_at n b m y k }
    ensures brings { (n b m s k : ℕ) → 0 < b → b ≤ n → IsComplete n b m (n * s) k
        → n * (waiting n b m + k + 1) ≤ n * s + n }
    ensures by_its_call { (n b m given k : ℕ) → 0 < n → 0 < b → n * (waiting n b m + k + 1) ≤ given
        → IsComplete n b m given k }
{}

/// The words of interleaved bytes are the bytes that were interleaved, in order.
pub fn back()
    ensures zeros { (n b m : ℕ) (x : List ℕ) (k : ℕ) → 0 < b → IsComplete n b m (length x) k
        → word_at n b m (interleaved b m x) k ≡ take n (drop (n * k) x) }
    ensures behind { (n b m : ℕ) (lists : List (List ℕ)) (x y : List ℕ) (k : ℕ) → 0 < b
        → IsInterleavedBehind b m lists x y → IsComplete n b m (length x) k
        → word_at n b m y k ≡ take n (drop (n * k) x) }
{}

/// What a word gives, where its correction is a function of it.
pub fn the_data()
    ensures good { (n k : ℕ) (white : List ℕ) (from : ℕ) (word out : List ℕ) (fixed : ℕ) → n ≤ 255 → length word ≡ n
        → IsGood n k white from word out fixed
        → (code : List ℕ) × (correction n k word ≡ Some code) × (fixed ≡ distance word code)
        × (out ≡ whitened white from (take k code)) }
    ensures bad { (n k : ℕ) (white : List ℕ) (from : ℕ) (word out : List ℕ) → IsBad n k white from word out
        → (correction n k word ≡ None) × (out ≡ whitened white from (take k word)) }
{}
