// The way back of the interleaver.

use crate::expect::only;
use dtx_laws::Gather;
use dtx_spread::Collect;

/// Where alone a byte of what leaves isn't 0, and that byte, where a byte FF comes to that place, and zeros else.
fn left(mut collect: Collect<52, 4>, comes: usize) -> Option<(usize, u8)> {
    let mut bytes = [0; 24_000];
    if let Some(byte) = bytes.get_mut(comes) {
        *byte = 0xff;
    }
    collect.gather(&mut bytes);
    only(&bytes)
}

// Byte n of what leaves is byte n - 208 * (51 - n mod 52) of what comes.
#[test]
fn a_byte_leaves_after_its_branch_has_filled(rt: HostRuntime) {
    for (comes, leaves) in [(0, 10_608), (1, 10_401), (51, 51), (10_659, 10_659)] {
        let collect = Collect::new(rt.alloc()).expect(&rt, "a collector");
        assert!(rt;
            left(collect, comes) == Some((leaves, 0xff)),
            "byte {comes}"
        );
    }
}
