// The line of what no check can show: a stream of more packets than there may be.

use dtx_meaning::{Status, ended};
use dtx_outside::MemorySink;
use dtx_words::{Command, line};
use std::alloc::Global;

/// Whether that is the line of a stream that is too long.
fn is_too_long(alloc: Global, text: &str) -> bool {
    let mut out = MemorySink::new(alloc);
    line(Some(Command::Code), &ended(Status::TooLong), "", &mut out).is_ok()
        && out.bytes() == text.as_bytes()
}

#[test]
fn a_stream_of_too_many_packets_has_its_line(rt: HostRuntime) {
    assert!(rt; is_too_long(rt.alloc(), "too long\n"));
}
