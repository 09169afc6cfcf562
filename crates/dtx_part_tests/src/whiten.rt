// Worked bytes of the randomizer.

use crate::expect::expect_none;
use dtx_laws::Whitener;
use dtx_whiten::Atsc;

/// Byte `at` of a period.
fn drawn(atsc: &Atsc, at: usize) -> Option<u8> {
    if at < Atsc::PERIOD {
        return Some(atsc.byte(at));
    }
    None
}

const BYTES: [(usize, Option<u8>); 11] = [
    (0, Some(0xC0)),
    (1, Some(0x6D)),
    (2, Some(0x3F)),
    (3, Some(0x99)),
    (186, Some(0x58)),
    (187, Some(0xBA)),
    (12_345, Some(0x9B)),
    (58_156, Some(0xA5)),
    (58_157, Some(0xB7)),
    (58_343, Some(0x99)),
    (58_344, None),
];

/// The first of these rows that isn't so.
fn first_wrong(atsc: &Atsc) -> Option<usize> {
    for (row, (at, byte)) in BYTES.iter().enumerate() {
        if drawn(atsc, *at) != *byte {
            return Some(row);
        }
    }
    None
}

/// The same of one that is dropped here.
fn wrong_of(atsc: Atsc) -> Option<usize> {
    first_wrong(&atsc)
}

#[test]
fn the_bytes_are_those_of_a_register_drawn_from_the_standard(rt: HostRuntime) {
    expect_none(
        &rt,
        wrong_of(Atsc::new(rt.alloc()).expect(&rt, "a randomizer")),
    );
}
