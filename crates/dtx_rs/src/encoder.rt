//! The encoder of a code, and the syndromes of its words.

ghost use Rattle.std.specs.Prelude.{◌≡◌, ℕ, ◌+◌, ◌-◌, ◌<◌, ◌≤◌, [], ◌++◌, length, replicate, slice_index_or, take};
ghost use Rattle.dtx_galois.specs.Field.{AreBytes, pow, value};
ghost use Rattle.dtx_laws.specs.Codeword.{IsCode};
ghost use Rattle.dtx_laws.specs.Register.{generator};
ghost use Rattle.dtx_laws.specs.Words.{codeword};
ghost use Rattle.dtx_rs.specs.declared.divisor.TheConstants.{ELEMENTS};
ghost use Rattle.dtx_rs.specs.declared.words.TheConstants.{WIDTH};

use crate::divisor::{ELEMENTS, divisor_of};
use crate::register::{complete_by_register, encode_by_register};
use crate::table::Table;
use crate::words::WIDTH;
use dtx_galois::{ALPHA, Gf, eval};
use dtx_laws::{Encode, PARITY};

/// The encoder of words of `N` bytes with `K` bytes of data (ATSC A/53 Part 2, Reed-Solomon encoder).
///
/// The value holds a table of 20 kB, so make one and keep it. The table makes up to twenty parity bytes, four bytes of
/// data a step. More than twenty are made byte by byte.
#[derive(Drop)]
pub struct Rs<const N: usize, const K: usize> {
    divisor: [u8; ELEMENTS],
    table: Table,
    ghost code: { IsCode N K },
    ghost divides: { divisor ≡ generator (N - K) ++ replicate (ELEMENTS - (N - K)) 0 },
    ghost tabulated: { table.divisor ≡ take WIDTH divisor },
}

impl<const N: usize, const K: usize> Rs<N, K> {
    /// An encoder with its table. It allocates nothing.
    pub fn new() -> Self
        requires { IsCode N K }
    {
        let divisor = divisor_of(N - K);
        Rs {
            divisor,
            table: Table::new(&front(&divisor)),
        }
    }

    /// The value of a word at power `i` of α. In a codeword each of these values is 0.
    pub fn syndrome(&self, word: &[u8; N], i: usize) -> Gf
        requires { i < N - K }
        ensures { result.0 ≡ value word.now (pow 2 i) }
    {
        eval(&word[..], ALPHA.pow(i as u32))
    }

    /// Completes four words by the table.
    #[inline(always)]
    fn complete_by_table(&self, one: &mut [u8], two: &mut [u8], three: &mut [u8], four: &mut [u8])
        requires few { N - K ≤ WIDTH }
        requires one { length one.old ≡ N }
        requires two { length two.old ≡ N }
        requires three { length three.old ≡ N }
        requires four { length four.old ≡ N }
        ensures one { one.new ≡ codeword N K (take K one.old) }
        ensures two { two.new ≡ codeword N K (take K two.old) }
        ensures three { three.new ≡ codeword N K (take K three.old) }
        ensures four { four.new ≡ codeword N K (take K four.old) }
    {
        let parities = self.table.parity_of_four(
            front_of(one, K),
            front_of(two, K),
            front_of(three, K),
            front_of(four, K),
        );
        put_behind_two(K, &parities[0], &parities[1], one, two);
        put_behind_two(K, &parities[2], &parities[3], three, four);
    }

    /// Completes four words byte by byte.
    fn complete_by_register(
        &self,
        one: &mut [u8],
        two: &mut [u8],
        three: &mut [u8],
        four: &mut [u8],
    )
        requires one { length one.old ≡ N }
        requires two { length two.old ≡ N }
        requires three { length three.old ≡ N }
        requires four { length four.old ≡ N }
        ensures one { one.new ≡ codeword N K (take K one.old) }
        ensures two { two.new ≡ codeword N K (take K two.old) }
        ensures three { three.new ≡ codeword N K (take K three.old) }
        ensures four { four.new ≡ codeword N K (take K four.old) }
    {
        let divisor = &self.divisor[..N - K];
        complete_by_register(divisor, one);
        complete_by_register(divisor, two);
        complete_by_register(divisor, three);
        complete_by_register(divisor, four);
    }
}

impl<const N: usize, const K: usize> Encode<N, K> for Rs<N, K> {
    fn known(&self) {}

    fn encode(&self, head: &[u8; K], word: &mut [u8; N]) {
        if N - K <= WIDTH {
            join(&head[..], &self.table.parity(&head[..]), &mut word[..])
        } else {
            encode_by_register(&self.divisor[..N - K], &head[..], &mut word[..])
        }
    }

    fn complete_four(&self, words: &mut [u8]) {
        let (one, rest) = words.split_at_mut(N);
        let (two, rest) = rest.split_at_mut(N);
        let (three, four) = rest.split_at_mut(N);
        if N - K <= WIDTH {
            self.complete_by_table(one, two, three, four);
        } else {
            self.complete_by_register(one, two, three, four);
        }
    }

    fn parities(&self, words: &[[u8; N]; 4]) -> [[u8; PARITY]; 4] {
        let one = front_of(&words[0][..], K);
        let two = front_of(&words[1][..], K);
        let three = front_of(&words[2][..], K);
        let four = front_of(&words[3][..], K);
        self.table.parity_of_four(one, two, three, four)
    }
}

/// The first bytes of a word.
#[inline(always)]
fn front_of(word: &[u8], count: usize) -> &[u8]
    requires { count ≤ length word.now }
    ensures front { result.now ≡ take count word.now }
    ensures long { length result.now ≡ count }
    ensures bytes { AreBytes result.now }
{
    &word[..count]
}

/// The first coefficients, as many as the table's rows are long.
fn front(divisor: &[u8; ELEMENTS]) -> [u8; WIDTH]
    ensures { result ≡ take WIDTH divisor.now }
{
    let mut front = [0; WIDTH];
    front.copy_from_slice(&divisor[..WIDTH]);
    front
}

/// Puts parity bytes behind the first `count` bytes of a word, as many as there is room for.
#[inline(always)]
fn put_behind(count: usize, parity: &[u8; WIDTH], word: &mut [u8])
    requires room { count ≤ length word.old }
    requires few { length word.old ≤ count + WIDTH }
    ensures { word.new ≡ take count word.old ++ take (length word.old - count) parity.now }
{
    let rest = &mut word[count..];
    let room = rest.len();
    rest.copy_from_slice(&parity[..room]);
}

/// Does the same with two words, each with parity bytes of its own.
#[inline(always)]
fn put_behind_two(
    count: usize,
    parity: &[u8; WIDTH],
    second: &[u8; WIDTH],
    word: &mut [u8],
    other: &mut [u8],
)
    requires word_room { count ≤ length word.old }
    requires word_few { length word.old ≤ count + WIDTH }
    requires other_room { count ≤ length other.old }
    requires other_few { length other.old ≤ count + WIDTH }
    ensures word { word.new ≡ take count word.old ++ take (length word.old - count) parity.now }
    ensures other { other.new ≡ take count other.old ++ take (length other.old - count) second.now }
{
    put_behind(count, parity, word);
    put_behind(count, second, other);
}

/// Sets a word to the data, and then as many parity bytes as there is room for.
fn join(head: &[u8], parity: &[u8; WIDTH], word: &mut [u8])
    requires room { length head.now ≤ length word.old }
    requires few { length word.old ≤ length head.now + WIDTH }
    ensures bytes { AreBytes head.now }
    ensures word { word.new ≡ head.now ++ take (length word.old - length head.now) parity.now }
{
    let count = head.len();
    word[..count].copy_from_slice(head);
    put_behind(count, parity, word);
}
