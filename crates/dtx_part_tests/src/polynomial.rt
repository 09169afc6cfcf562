// Worked values of polynomials.

use crate::expect::expect_none;
use dtx_galois::{Gf, eval};

/// A polynomial's bytes, an element, and the value there. The last three rows are those of (x + 1) * (x + 2).
const VALUES: [(&[u8], u8, u8); 7] = [
    (&[], 5, 0),
    (&[7], 0, 7),
    (&[1, 2, 3], 2, 3),
    (&[0x47, 0x1F, 0xFA, 0x10], 0x8E, 0xCF),
    (&[1, 3, 2], 0, 2),
    (&[1, 3, 2], 1, 0),
    (&[1, 3, 2], 2, 0),
];

fn first_wrong() -> Option<usize> {
    for (row, (bytes, at, value)) in VALUES.iter().enumerate() {
        if eval(bytes, Gf(*at)).0 != *value {
            return Some(row);
        }
    }
    None
}

#[test]
fn the_first_byte_is_the_highest_coefficient_and_the_product_of_two_factors_vanishes_at_both(
    rt: HostRuntime,
) {
    expect_none(&rt, first_wrong());
}
