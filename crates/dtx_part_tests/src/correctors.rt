//! Worked words, and another codec's verdicts, on both correctors.

mod vectors;

ghost use Rattle.dtx_laws.specs.Codeword.{IsCode};

use crate::expect::expect_none;
use dtx_correct::Linear;
use dtx_fast::Fast;
use dtx_laws::{Correct, TooMany};
use std::process::Abort;
use vectors::{AIR, AIR_LEFT, Corrected, DVB, DVB_LEFT, PACKET, PACKET_LEFT};

/// The coefficients of the product of x + α^i for i from 0 to 9.
const ELEVEN: [u8; 11] = [
    0x01, 0xd8, 0xc2, 0x9f, 0x6f, 0xc7, 0x5e, 0x5f, 0x71, 0x9d, 0xc1,
];

/// The word of zeros with ten bytes FF in front.
fn ten_wrong() -> [u8; 207] {
    let mut word = [0; 207];
    word[..10].fill(0xff);
    word
}

/// The word of zeros with eleven wrong bytes at its end: its first ten syndromes are 0 and the eleventh isn't, as no
/// ten errors make it.
fn eleven_wrong() -> [u8; 207] {
    let mut word = [0; 207];
    word[196..].copy_from_slice(&ELEVEN);
    word
}

/// Whether the word becomes that, with this answer.
fn is_answered<const N: usize, const K: usize, C: Correct<N, K>>(
    code: &C,
    word: &[u8; N],
    right: &[u8; N],
    answer: Result<u8, TooMany>,
) -> bool {
    let mut tried = *word;
    code.correct(&mut tried) == answer && tried == *right
}

/// The first of these words that the codec corrects otherwise.
fn first_wrong<const N: usize, const K: usize, C: Correct<N, K>>(
    code: &C,
    rows: &[Corrected<N>],
) -> Option<usize> {
    for (number, row) in rows.iter().enumerate() {
        if !is_answered(code, &row.word, &row.right, Ok(row.changed)) {
            return Some(number);
        }
    }
    None
}

/// The first of these words that isn't given up.
fn first_not_left<const N: usize, const K: usize, C: Correct<N, K>>(
    code: &C,
    left: &[[u8; N]],
) -> Option<usize> {
    for (number, word) in left.iter().enumerate() {
        if !is_answered(code, word, word, Err(TooMany)) {
            return Some(number);
        }
    }
    None
}

/// The codec's verdicts on words that it corrects and on words that it gives up.
fn expect_verdicts<const N: usize, const K: usize>(
    rt: &impl Abort,
    rows: &[Corrected<N>],
    left: &[[u8; N]],
)
    requires { IsCode N K }
{
    let linear = Linear::<N, K>::new();
    expect_none(rt, first_wrong(&linear, rows));
    expect_none(rt, first_not_left(&linear, left));
    let fast = Fast::<N, K>::new();
    expect_none(rt, first_wrong(&fast, rows));
    expect_none(rt, first_not_left(&fast, left));
}

#[test]
fn words_are_corrected_or_given_up_as_by_another_codec(rt: HostRuntime) {
    expect_verdicts::<207, 187>(&rt, &AIR, &AIR_LEFT);
    expect_verdicts::<184, 164>(&rt, &PACKET, &PACKET_LEFT);
    expect_verdicts::<204, 188>(&rt, &DVB, &DVB_LEFT);
}

fn are_ten_and_eleven<C: Correct<207, 187>>(code: &C) -> bool {
    let eleven = eleven_wrong();
    is_answered(code, &ten_wrong(), &[0; 207], Ok(10))
        && is_answered(code, &eleven, &eleven, Err(TooMany))
}

#[test]
fn ten_wrong_bytes_are_put_right_and_eleven_are_left(rt: HostRuntime) {
    assert!(rt; are_ten_and_eleven(&Linear::new()) && are_ten_and_eleven(&Fast::new()));
}
