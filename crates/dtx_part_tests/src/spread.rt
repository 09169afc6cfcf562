// The interleaver alone.

use crate::expect::only;
use dtx_laws::Spread;
use dtx_spread::Branches;

/// Whether a byte that comes to the last branch leaves with the last of what that held, and zeros else.
fn leaves(mut spread: Branches<52, 4>) -> bool {
    let mut bytes = [0; 40_000];
    bytes[51] = 0xff;
    spread.pass(&mut bytes);
    only(&bytes) == Some((10_659, 0xff))
}

#[test]
fn a_byte_leaves_after_its_branch_has_filled(rt: HostRuntime) {
    assert!(rt; leaves(Branches::new(rt.alloc()).expect(&rt, "an interleaver")));
}

/// Whether what came before the align leaves behind it.
fn keeps(mut spread: Branches<3, 1>) -> bool {
    let mut before = [1, 2];
    spread.pass(&mut before);
    spread.align();
    let mut behind = [3, 4, 5, 6, 7, 8];
    spread.pass(&mut behind);
    before == [1, 0] && behind == [3, 2, 0, 6, 4, 0]
}

#[test]
fn an_align_keeps_what_the_branches_hold(rt: HostRuntime) {
    assert!(rt; keeps(Branches::new(rt.alloc()).expect(&rt, "an interleaver")));
}
