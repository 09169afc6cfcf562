//! The trait of the correctors of words.

ghost use Rattle.std.specs.Prelude.{◌≡◌, MatchResult, length};
ghost use Rattle.dtx_laws.specs.Codeword.{IsCode};
ghost use Rattle.dtx_laws.specs.Words.{AreCorrected, IsCorrected, IsLeft};

/// No codeword lies within `(N - K) / 2` places of the word.
#[derive(Clone, Copy, Debug, PartialEq, Eq)]
pub struct TooMany;

/// Corrects words of `N` bytes, `K` of them data, in which at most `(N - K) / 2` bytes are wrong (ATSC A/53 Part 2,
/// Reed-Solomon encoder: the way back).
pub trait Correct<const N: usize, const K: usize> {
    /// Gives proofs a fact, and has no effect: `N` and `K` are the numbers of a code. A generic caller needs this.
    fn known(&self)
        ensures { IsCode N K };

    /// Sets `word` to the codeword within `(N - K) / 2` places, and returns how many places changed. Where there is
    /// none, the answer is `TooMany`, and the word stays. By `laws::one_answer` there is at most one answer.
    fn correct(&self, word: &mut [u8; N]) -> Result<u8, TooMany>
        ensures answer { MatchResult result (IsCorrected N K word.old word.new) (λ _e. IsLeft N K word.old word.new) }
        ensures long { length word.new ≡ N };

    /// Corrects four words, each as `correct` does.
    fn correct_four(&self, words: &mut [[u8; N]; 4]) -> [Result<u8, TooMany>; 4]
        ensures { AreCorrected N K words.old words.new result }
    {
        let mut answers = [Ok(0); 4];
        for p in 0..4 {
            answers[p] = self.correct(&mut words[p]);
        }
        answers
    }
}
