// The host's standard output.

use dtx_host::{HostSink, Progress};
use dtx_outside::Sink;

#[test]
fn bytes_are_printed(rt: HostRuntime) {
    let progress = Progress::new(&rt, false);
    let mut sink = HostSink::new(&rt, &progress);
    assert!(rt; sink.write(b"printed\n") == Ok(8));
}
