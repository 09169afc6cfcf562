// The messages of what an operations packet and the next packet of a file are refused for.

use crate::expect::expect;
use dtx_ops::OpsNo;
use dtx_packets::NextNo;
use std::alloc::Global;
use std::fmt::Display;

static OPS: [(OpsNo, &str); 11] = [
    (OpsNo::NotOps, "NotOps"),
    (OpsNo::Uncorrectable, "Uncorrectable"),
    (OpsNo::Kind, "Kind"),
    (OpsNo::Pad, "Pad"),
    (OpsNo::Stamp, "Stamp"),
    (OpsNo::Delay, "Delay"),
    (OpsNo::Index, "Index"),
    (OpsNo::Count, "Count"),
    (OpsNo::Twice, "Twice"),
    (OpsNo::Fill, "Fill"),
    (OpsNo::Page, "Page"),
];

static NEXT: [(NextNo, &str); 4] = [
    (NextNo::Absent, "Absent"),
    (NextNo::Failed, "Failed"),
    (NextNo::Memory, "Memory"),
    (NextNo::TooLong, "TooLong"),
];

/// Whether the message of a refusal is its name.
fn is_named(alloc: Global, no: &impl Display, name: &str) -> bool {
    match format!(in alloc; "{no}") {
        Ok(message) => message.as_str() == name,
        Err(_) => false,
    }
}

#[test]
fn the_message_of_a_refusal_is_its_name(rt: HostRuntime) {
    for (no, name) in &OPS {
        expect(&rt, is_named(rt.alloc(), no, name), *name);
    }
    for (no, name) in &NEXT {
        expect(&rt, is_named(rt.alloc(), no, name), *name);
    }
}
