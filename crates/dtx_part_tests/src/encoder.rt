//! The encoder beside another codec, and the syndromes of a worked word.

mod vectors;

use crate::expect::expect_none;
use dtx_laws::Encode;
use dtx_rs::Rs;
use vectors::{AIR, Codeword, DVB, PACKET};

/// Whether the word of these data has these parity bytes.
fn is_encoded<const N: usize, const K: usize>(
    code: &Rs<N, K>,
    head: &[u8; K],
    parity: &[u8],
) -> bool {
    let mut word = [0xff; N];
    code.encode(head, &mut word);
    word.starts_with(head) && word.ends_with(parity)
}

fn first_wrong<const N: usize, const K: usize, const P: usize>(
    code: &Rs<N, K>,
    codewords: &[Codeword<K, P>],
) -> Option<usize> {
    for (number, codeword) in codewords.iter().enumerate() {
        if !is_encoded(code, &codeword.head, &codeword.parity) {
            return Some(number);
        }
    }
    None
}

#[test]
fn parity_bytes_are_those_of_another_codec(rt: HostRuntime) {
    expect_none(&rt, first_wrong(&Rs::<207, 187>::new(), &AIR));
    expect_none(&rt, first_wrong(&Rs::<184, 164>::new(), &PACKET));
    expect_none(&rt, first_wrong(&Rs::<204, 188>::new(), &DVB));
}

/// The generator polynomial's coefficients behind the first.
const GENERATOR: [u8; 20] = [
    0x98, 0xb9, 0xf0, 0x05, 0x6f, 0x63, 0x06, 0xdc, 0x70, 0x96, 0x45, 0x24, 0xbb, 0x16, 0xe4, 0xc6,
    0x79, 0x79, 0xa5, 0xae,
];

#[test]
fn data_that_are_one_give_the_generator(rt: HostRuntime) {
    let mut head = [0; 187];
    head[186] = 1;
    assert!(rt; is_encoded(&Rs::<207, 187>::new(), &head, &GENERATOR));
}

// The last byte is the coefficient of 1.
#[test]
fn each_syndrome_of_a_last_byte_alone_is_that_byte(rt: HostRuntime) {
    let packet = Rs::<184, 164>::new();
    let mut word = [0; 184];
    word[183] = 5;
    assert!(rt; [packet.syndrome(&word, 0).0, packet.syndrome(&word, 19).0] == [5, 5]);
}
