//! What a call of the receiver has taken.

ghost use Rattle.std.specs.Prelude.{◌≡◌, ◌≤◌};
ghost use Rattle.dtx_receiver.specs.Runs as runs;

use crate::tracking::Tracking;

/// What a call has done with the segments that it was given.
#[derive(Clone, Copy, Debug, PartialEq, Eq)]
pub struct Progress {
    /// The number of segments that were received, from the first one on.
    pub segments: usize,
    /// The number of runs that began with them.
    pub runs: u64,
}

/// The number of runs that begin with a segment of this kind: 1 for `Began`, else 0.
pub fn begun(tracking: Tracking) -> u64
    ensures begun { result ≡ runs.begun tracking }
    ensures one { result ≤ 1 }
{
    match tracking {
        Tracking::Began => 1,
        _ => 0,
    }
}
