//! What ends a test at a row of its table, and what several tests ask of bytes.

use std::fmt::Display;
use std::process::Abort;

/// Expects nothing to be wrong: of the first row or place that is, the number is told.
pub(crate) fn expect_none(rt: &impl Abort, wrong: Option<usize>) {
    if let Some(row) = wrong {
        panic!(rt; "number {row} is wrong");
    }
}

/// Ends the test where a row doesn't hold, and says which row it is: its number from 0, or its text.
pub(crate) fn expect<Name: Display + Drop>(rt: &impl Abort, holds: bool, row: Name) {
    if !holds {
        panic!(rt; "row {row}")
    }
}

/// Where alone a byte isn't 0, and that byte.
pub(crate) fn only(bytes: &[u8]) -> Option<(usize, u8)> {
    let mut found = None;
    for (place, byte) in bytes.iter().enumerate() {
        if *byte != 0 {
            if found.is_some() {
                return None;
            }
            found = Some((place, *byte));
        }
    }
    found
}
