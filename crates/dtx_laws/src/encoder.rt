//! The trait of the encoders of codewords.

ghost use Rattle.std.specs.Prelude.{◌≡◌, ℕ, ◌-◌, ◌*◌, ◌<◌, ◌≤◌, [], ◌++◌, length, slice_index_or, take};
ghost use Rattle.dtx_laws.specs.Codeword.{IsCode, IsCodeword};
ghost use Rattle.dtx_laws.specs.Words.{codeword, completed};
ghost use Rattle.dtx_laws.specs.declared.encoder.TheConstants.{PARITY};

/// How many parity bytes `Encode::parities` has room for.
pub const PARITY: usize = 20;

/// Encodes `K` bytes of data as a codeword of `N` bytes (ATSC A/53 Part 2, Reed-Solomon encoder).
pub trait Encode<const N: usize, const K: usize> {
    /// Gives proofs a fact, and has no effect: `N` and `K` are the numbers of a code. A generic caller needs this.
    fn known(&self)
        ensures { IsCode N K };

    /// Sets `word` to the one codeword that begins with `head` (`laws::the_codeword` says what it is).
    fn encode(&self, head: &[u8; K], word: &mut [u8; N])
        ensures codeword { word.new ≡ codeword N K head.now }
        ensures is { IsCodeword N K word.new }
        ensures long { length word.new ≡ N };

    /// Completes four words at once, which stand one behind the other. In each word the parity bytes replace what
    /// stands behind the data, so that the word is the codeword of its data.
    fn complete_four(&self, words: &mut [u8])
        requires { length words.old ≡ N * 4 }
        ensures { words.new ≡ completed N K 4 words.old };

    /// The parity bytes of four words' data. The first `K` bytes of a word, followed by the first `N - K` of its
    /// answer, are a codeword. The word's other bytes don't matter, and the answer's other bytes are unspecified.
    fn parities(&self, words: &[[u8; N]; 4]) -> [[u8; PARITY]; 4]
        requires { N - K ≤ PARITY }
        ensures { (p : ℕ) → p < 4 → IsCodeword N K (take K (slice_index_or words.now p [])
            ++ take (N - K) (slice_index_or result p [])) };
}
