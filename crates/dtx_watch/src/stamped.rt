// The clock of the operations packets under one anchor.
ghost use Rattle.std.specs.Prelude.{◌≡◌};
ghost use Rattle.dtx_watch.specs.Clock.{stamp_in, frames_between, clock_note};

use crate::notes::ClockNote;
use dtx_clock::runs;
use dtx_ops::Ops;

/// What the clock of the next operations packet is compared with.
#[derive(Clone, Copy)]
pub(crate) struct Stamped {
    pub stamp: u32,
    pub max_delay: u32,
    pub frame: u32,
}

/// The fields of an operations packet with which the next one is compared.
pub(crate) fn stamp_in(ops: &Ops) -> Stamped
    ensures { result ≡ stamp_in ops.now }
{
    Stamped {
        stamp: ops.stamp,
        max_delay: ops.max_delay,
        frame: ops.frame,
    }
}

/// Compares the clock of an operations packet with that of the latest one before it, if any.
pub(crate) fn clock_note(latest: Option<Stamped>, ops: &Ops) -> ClockNote
    ensures { result ≡ clock_note latest ops.now }
{
    match latest {
        Some(before) => {
            let frames = frames_between(before.frame, ops.frame);
            if runs(before.stamp, ops.stamp, frames) && ops.max_delay == before.max_delay {
                ClockNote::Right
            } else {
                ClockNote::Jump
            }
        }
        None => ClockNote::First,
    }
}

/// How many frames lie from one frame number to another, modulo 2^32.
fn frames_between(from: u32, to: u32) -> u32
    ensures { result ≡ frames_between from to }
{
    ((to as u64 + (1 << 32) - from as u64) % (1 << 32)) as u32
}
