//! Errors of a word's bytes, and whether one, two or three of them give all syndromes.

ghost use Rattle.std.specs.Prelude.{◌≡◌, ℕ, ◌+◌, ◌-◌, ◌*◌, ◌<◌, ◌↔◌, IsTrue, length, slice_index, slice_set};
ghost use Rattle.std.specs.Int.RustNames.{bit_xor};
ghost use Rattle.dtx_galois.specs.Field.{pow};

use dtx_galois::ALPHA;
use dtx_laws::correcting::ROOM;

/// An error as two exponents of α. Power `error` is what is added to a byte. Power `place` is the one whose coefficient
/// the byte is.
#[derive(Clone, Copy, Drop)]
pub struct WrongByte {
    pub error: u8,
    pub place: u8,
}

impl WrongByte {
    /// What the error adds to syndrome `i`.
    #[inline(always)]
    fn syndrome(self, i: usize) -> u8
        requires { i < ROOM }
        ensures { result ≡ pow 2 (self.error + self.place * i) }
    {
        ALPHA
            .pow(self.error as u32 + self.place as u32 * i as u32)
            .0
    }

    /// Takes the error away.
    pub fn mend(self, word: &mut [u8])
        requires { self.place < length word.old }
        ensures { word.new ≡ slice_set word.old (length word.old - 1 - self.place)
            (bit_xor (slice_index word.old (length word.old - 1 - self.place)) (pow 2 self.error)) }
    {
        let at = word.len() - 1 - self.place as usize;
        word[at] ^= ALPHA.pow(self.error as u32).0;
    }
}

/// Whether an error alone gives the syndromes.
pub fn one_gives(wrong: WrongByte, syndromes: &[u8; ROOM], count: usize) -> bool
    requires { count < ROOM }
    ensures { IsTrue result ↔ ((i : ℕ) → i < count
        → slice_index syndromes.now i ≡ pow 2 (wrong.error + wrong.place * i)) }
{
    for i in 0..count {
        if syndromes[i] != wrong.syndrome(i) {
            return false;
        }
    }
    true
}

/// Whether two errors alone give the syndromes.
pub fn two_give(first: WrongByte, second: WrongByte, syndromes: &[u8; ROOM], count: usize) -> bool
    requires { count < ROOM }
    ensures { IsTrue result ↔ ((i : ℕ) → i < count → slice_index syndromes.now i
        ≡ bit_xor (pow 2 (first.error + first.place * i)) (pow 2 (second.error + second.place * i))) }
{
    for i in 0..count {
        if syndromes[i] != first.syndrome(i) ^ second.syndrome(i) {
            return false;
        }
    }
    true
}

/// Whether three errors alone give the syndromes.
pub fn three_give(
    first: WrongByte,
    second: WrongByte,
    third: WrongByte,
    syndromes: &[u8; ROOM],
    count: usize,
) -> bool
    requires { count < ROOM }
    ensures { IsTrue result ↔ ((i : ℕ) → i < count → slice_index syndromes.now i
        ≡ bit_xor (bit_xor (pow 2 (first.error + first.place * i)) (pow 2 (second.error + second.place * i)))
        (pow 2 (third.error + third.place * i))) }
{
    for i in 0..count {
        if syndromes[i] != first.syndrome(i) ^ second.syndrome(i) ^ third.syndrome(i) {
            return false;
        }
    }
    true
}
