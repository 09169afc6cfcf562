//! Worked words, and words damaged at marked and unmarked places.

use crate::expect::expect_none;
use dtx_erase::Erase;
use dtx_laws::TooMany;

/// The code of the air.
type Air = Erase<207, 187>;

/// The word of zeros of which so many bytes from the front on are FF.
fn spoilt_word(spoilt: usize) -> [u8; 207] {
    let mut word = [0; 207];
    for i in 0..207 {
        word[i] = if i < spoilt { 0xff } else { 0 };
    }
    word
}

/// Of which bytes so many from the front on are marked.
fn marked_front(marked: usize) -> [bool; 207] {
    let mut marks = [false; 207];
    for i in 0..207 {
        marks[i] = i < marked;
    }
    marks
}

/// How many bytes of a word of zeros are marked, and how many are FF, from the front on, and the answer.
const WORKED: [(usize, usize, Result<u8, TooMany>); 8] = [
    (20, 20, Ok(20)),
    (18, 19, Ok(19)),
    (19, 20, Err(TooMany)),
    (21, 21, Err(TooMany)),
    (21, 0, Err(TooMany)),
    (20, 0, Ok(0)),
    (0, 10, Ok(10)),
    (0, 11, Err(TooMany)),
];

/// The first of these words that is mended or left otherwise.
fn first_wrong(air: &Air) -> Option<usize> {
    for (row, (marked, spoilt, answer)) in WORKED.iter().enumerate() {
        let mut word = spoilt_word(*spoilt);
        let right = if answer.is_ok() { 0 } else { *spoilt };
        if air.mend(&mut word, &marked_front(*marked)) != *answer || word != spoilt_word(right) {
            return Some(row);
        }
    }
    None
}

#[test]
fn worked_words_are_mended_or_left(rt: HostRuntime) {
    expect_none(&rt, first_wrong(&Erase::new()));
}

/// The parity bytes of the data bytes 7 * i + 3, modulo 256, by long division.
const PARITY_BYTES: [u8; 20] = [
    0xa4, 0x0b, 0x39, 0x0e, 0x17, 0x4d, 0x44, 0xfc, 0x42, 0x08, 0xdc, 0x73, 0xe5, 0x46, 0x72, 0x20,
    0xf2, 0x7c, 0x52, 0x92,
];

/// Those data with their parity bytes.
fn word_of_data() -> [u8; 207] {
    let mut sent = [0; 207];
    for i in 0..187u8 {
        sent[i as usize] = i.wrapping_mul(7).wrapping_add(3);
    }
    sent[187..].copy_from_slice(&PARITY_BYTES);
    sent
}

/// The word with so many bytes missing and so many others wrong, at most 24 each, and its marks.
fn damaged(sent: &[u8; 207], missing: usize, wrong: usize) -> ([u8; 207], [bool; 207]) {
    let mut word = *sent;
    let mut marks = [false; 207];
    for i in 0..24 {
        marks[8 * i] = i < missing;
        word[8 * i] ^= if i < missing { 0xff } else { 0 };
        word[8 * i + 4] ^= if i < wrong { 0x5a } else { 0 };
    }
    (word, marks)
}

/// A missing byte costs one of the twenty parity bytes, a wrong one two.
fn cost(missing: usize, wrong: usize) -> usize {
    wrong.wrapping_mul(2).wrapping_add(missing)
}

/// What is answered there. Where the parity bytes suffice, the word comes back; where they don't, there is mostly no
/// mending. But a codeword that is near enough is one, whichever it is: by a plain solver of linear equations there is
/// another one in four of the cases.
fn answer(missing: usize, wrong: usize) -> Result<u8, TooMany> {
    match (missing, wrong) {
        (16, 3) => Ok(18),
        (18, 3) => Ok(19),
        (20, 1) | (20, 2) => Ok(20),
        _ if cost(missing, wrong) <= 20 => Ok((missing.wrapping_add(wrong) % 256) as u8),
        _ => Err(TooMany),
    }
}

/// Whether it is answered so, and whether the word comes back just where the parity bytes suffice.
fn is_answered(air: &Air, sent: &[u8; 207], missing: usize, wrong: usize) -> bool {
    let (mut word, marks) = damaged(sent, missing, wrong);
    let answered = air.mend(&mut word, &marks);
    answered == answer(missing, wrong) && (word == *sent) == (cost(missing, wrong) <= 20)
}

/// Whether that is so of each number of wrong bytes that costs at most 24 with so many missing ones.
fn are_answered(air: &Air, sent: &[u8; 207], missing: usize) -> bool {
    for wrong in 0..13 {
        if cost(missing, wrong) <= 24 && !is_answered(air, sent, missing, wrong) {
            return false;
        }
    }
    true
}

/// The first number of missing bytes of which it isn't so.
fn first_wrong_damage(air: &Air) -> Option<usize> {
    let sent = word_of_data();
    for missing in 0..25 {
        if !are_answered(air, &sent, missing) {
            return Some(missing);
        }
    }
    None
}

#[test]
fn damage_is_mended_while_the_parity_bytes_suffice(rt: HostRuntime) {
    expect_none(&rt, first_wrong_damage(&Erase::new()));
}
