// What an anchor sees of packets, mark by mark.

use crate::expect::expect;
use dtx_cadence::{Anchor, Seen};
use dtx_sizes::MARK;

/// What is seen of the last of so many packets, of which those at the places of `marks` are marks.
fn last_seen(count: u64, marks: &[u64]) -> Seen {
    let mut anchor = Anchor::new();
    let mut last = Seen::Free;
    for k in 0..count {
        last = anchor.see(if marks.contains(&k) { MARK } else { 0x47 });
    }
    last
}

type Row = (u64, &'static [u64], Seen);

/// How many packets, the places of the marks among them, and what is seen of the last.
static CASES: [Row; 20] = [
    (5, &[], Seen::Free),
    (1, &[0], Seen::Start),
    (8, &[7], Seen::Start),
    (10, &[7], Seen::At(2)),
    (631, &[7], Seen::At(623)),
    // the second mark is due
    (632, &[7, 631], Seen::At(0)),
    (633, &[7, 631], Seen::At(1)),
    // one missing mark moves nothing
    (632, &[7], Seen::At(0)),
    (633, &[7], Seen::At(1)),
    (1256, &[7, 1255], Seen::At(0)),
    // the first one came, so the third alone is missing
    (1880, &[7, 1255], Seen::At(0)),
    // two missing in a row
    (1255, &[7], Seen::At(623)),
    (1256, &[7], Seen::Lost),
    (1257, &[7], Seen::Free),
    (2504, &[7, 1255], Seen::Lost),
    // a stray mark moves nothing, also one packet behind the anchor, nor does it stand for one that is due
    (9, &[7, 8], Seen::At(1)),
    (102, &[7, 100], Seen::At(94)),
    (725, &[7, 100, 724], Seen::At(93)),
    (1256, &[7, 100, 632, 724], Seen::Lost),
    // the next mark behind a lost anchor is the anchor
    (1349, &[7, 100, 724, 1348], Seen::Start),
];

fn is_seen(row: &Row) -> bool {
    let (count, marks, seen) = row;
    last_seen(*count, marks) == *seen
}

#[test]
fn a_first_mark_is_the_anchor_until_two_due_marks_in_a_row_are_missing(rt: HostRuntime) {
    for i in 0..CASES.len() {
        expect(&rt, is_seen(&CASES[i]), i);
    }
}
