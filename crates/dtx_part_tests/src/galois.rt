// Worked products, inverses and powers of field elements.

use crate::expect::expect_none;
use dtx_galois::{ALPHA, Gf};

const PRODUCTS: [(u8, u8, u8); 5] = [
    (2, 0x80, 0x1D),
    (0x53, 0xCA, 0x8F),
    (0xFF, 0xFF, 0xE2),
    (0, 0x47, 0),
    (1, 0xB8, 0xB8),
];

fn first_wrong_product() -> Option<usize> {
    for (row, (a, b, product)) in PRODUCTS.iter().enumerate() {
        let (a, b) = (Gf(*a), Gf(*b));
        if a.mul(b).0 != *product || (b * a).0 != *product {
            return Some(row);
        }
    }
    None
}

#[test]
fn products_are_those_worked_by_long_division(rt: HostRuntime) {
    expect_none(&rt, first_wrong_product());
}

#[test]
fn inverses_are_those_found_by_trying_all(rt: HostRuntime) {
    for (a, inverse) in [
        (1, 1),
        (2, 0x8E),
        (3, 0xF4),
        (0x53, 0x8C),
        (0x80, 0x1B),
        (0xFF, 0xFD),
    ] {
        assert!(rt; Gf(a).inv().0 == inverse, "the inverse of {a}");
    }
}

/// An element, how many times it is taken, and its power.
const POWERS: [(Gf, u32, u8); 9] = [
    (ALPHA, 0, 1),
    (ALPHA, 1, 2),
    (ALPHA, 8, 0x1D),
    (ALPHA, 254, 0x8E),
    (ALPHA, 255, 1),
    (ALPHA, u32::MAX, 1),
    (Gf(0), 0, 1),
    (Gf(0), 3, 0),
    (Gf(0xFF), 1000, 0x5E),
];

fn first_wrong_power() -> Option<usize> {
    for (row, (element, times, power)) in POWERS.iter().enumerate() {
        if element.pow(*times).0 != *power {
            return Some(row);
        }
    }
    None
}

#[test]
fn powers_of_alpha_come_round_after_their_order(rt: HostRuntime) {
    expect_none(&rt, first_wrong_power());
}
