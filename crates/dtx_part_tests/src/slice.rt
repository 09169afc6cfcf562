// Worked symbols, and worked groups of which few levels aren't 0.

ghost use Rattle.std.specs.Prelude.{◌≡◌, ◌%◌, ◌<◌, EachIndex, slice_index};

use crate::expect::only;
use dtx_sizes::{FIELD_PACKETS, GROUP_BYTES, GROUP_LEVELS, PRECODE, SEGMENT, SEGMENT_LEVELS};
use dtx_slice::{Unroll, last_levels, level, levels, put_levels};

#[test]
fn a_symbol_of_any_strength_has_the_level_that_is_nearest(rt: HostRuntime) {
    let symbols = [-128, -7, -6, -1, 0, 1, 7, 127];
    let levels = [0, 0, 1, 3, 4, 4, 7, 7];
    for i in 0..8usize {
        assert!(rt; level(symbols[i]) == levels[i]);
    }
}

#[test]
fn a_segments_symbols_are_sliced_where_they_stand(rt: HostRuntime) {
    let mut segment = [-7; SEGMENT];
    segment[3] = 5;
    segment[4] = 3;
    segment[820] = 127;
    segment[831] = -5;
    let mut out = [0; SEGMENT_LEVELS];
    levels(&segment, &mut out);
    assert!(rt; [out[0], out[1], out[816], out[827]] == [5, 0, 7, 1]);
    let mut group = [6; GROUP_LEVELS];
    put_levels(&segment, 2, &mut group);
    assert!(rt; [group[1655], group[1656], group[2483], group[2484]] == [6, 5, 1, 6]);
    assert!(rt; last_levels(&segment) == [7, 0, 0, 0, 0, 0, 0, 0, 0, 0, 0, 1]);
}

/// The bytes of a group of level 0 alone, behind a field sync with such last levels.
fn behind(last: &[u8; PRECODE], first: u16) -> [u8; GROUP_BYTES]
    requires last { EachIndex last.now (λ q. slice_index last.now q < 8) }
    requires in_field { first < FIELD_PACKETS }
    requires whole { first % 4 ≡ 0 }
{
    let mut unroll = Unroll::new();
    unroll.start(last);
    let mut bytes = [1; GROUP_BYTES];
    unroll.group(first, &[0; GROUP_LEVELS], &mut bytes);
    bytes
}

// Symbol 820 of a field sync repeats one of coder 8. Its next Z2 is 0, so that its first X2 is 1. In a group at place 4
// of its field that coder works on byte 4.
#[test]
fn the_first_repeated_symbol_is_of_coder_8(rt: HostRuntime) {
    let last = [4, 0, 0, 0, 0, 0, 0, 0, 0, 0, 0, 3];
    assert!(rt; only(&behind(&last, 0)) == Some((8, 0x80)));
    assert!(rt; only(&behind(&last, 4)) == Some((4, 0x80)));
}
