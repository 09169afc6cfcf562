// Stamps, holds and moments (ATSC A/110, the time of emission; the counting is the profile's own).
ghost use Rattle.std.specs.Prelude.{◌≡◌, ◌<◌};
ghost use Rattle.dtx_clock.specs.Clock.{stamp_of, runs, segment_of, count_of, grains_of, moment_of, IsHold};
ghost use Rattle.dtx_sizes.specs.declared.fields.TheConstants.{FRAME_PACKETS};
ghost use Rattle.dtx_sizes.specs.declared.limits.TheConstants.{MOST_FRAMES, SECOND_TICKS};

use crate::answers::{Late, Moment};
use dtx_sizes::{FIELD_PACKETS, FRAME_PACKETS, MOST_FRAMES, SECOND_TICKS};

/// How many grains a tick has. The symbol rate is 4.5 MHz * 684 / 286, so a symbol lasts 1430 grains.
const TICK: u64 = 1539;

/// How many grains a segment of 832 symbols lasts.
const SEGMENT: i64 = 1_189_760;

/// How many grains a frame of 626 segments lasts.
const FRAME: u64 = 744_789_760;

/// How many grains a second has.
const SECOND: i64 = 15_390_000_000;

/// The stamp of a frame: the tick within its second at which it begins, where frame 0 begins at the tick `start`.
pub fn stamp(start: u32, frame: u32) -> u32
    requires start { start < SECOND_TICKS }
    requires frame { frame < MOST_FRAMES }
    ensures stamp { result ≡ stamp_of start frame }
    ensures within { result < SECOND_TICKS }
{
    let grains = start as u64 * TICK + frame as u64 * FRAME;
    (grains / TICK % SECOND_TICKS as u64) as u32
}

/// Whether a running clock gets from the stamp `from` to the stamp `to` in `frames` frames. It does if the ticks
/// between the two, modulo one second, are the length of all frames together, rounded down or up to whole ticks.
pub fn runs(from: u32, to: u32, frames: u32) -> bool
    ensures { result ≡ runs from to frames }
{
    let second = SECOND_TICKS as u64;
    let ticks = (to as u64 + second - from as u64 % second) % second;
    let grains = frames as u64 * FRAME;
    ticks == grains / TICK % second || ticks == (grains + (TICK - 1)) / TICK % second
}

/// For how many ticks a transmitter holds what it sends: `max + offset - delay`. The feed takes `delay` ticks to reach
/// it. The error is `Late` if the delay is greater than `max + offset`.
pub fn hold(max: u32, offset: i16, delay: u32) -> Result<u32, Late>
    requires { max < SECOND_TICKS }
    ensures { IsHold max offset delay result }
{
    let left = max as i64 + offset as i64 - delay as i64;
    if left < 0 { Err(Late) } else { Ok(left as u32) }
}

/// The moment at which the data segment of the packet at place `packet` of its frame begins. It is the sum of the
/// frame's stamp, the maximum delay, the offset, and the length of the frame's segments before that one.
pub fn moment(stamp: u32, max: u32, offset: i16, packet: u16) -> Moment
    requires stamp { stamp < SECOND_TICKS }
    requires max { max < SECOND_TICKS }
    requires packet { packet < FRAME_PACKETS }
    ensures { result ≡ moment_of stamp max offset packet }
{
    let grains = grains(stamp, max, offset, packet);
    Moment {
        tick: (grains / TICK) as u32,
        grain: (grains % TICK) as u16,
    }
}

/// The grains of a moment within its second.
fn grains(stamp: u32, max: u32, offset: i16, packet: u16) -> u64
    requires stamp { stamp < SECOND_TICKS }
    requires max { max < SECOND_TICKS }
    requires packet { packet < FRAME_PACKETS }
    ensures grains { result ≡ grains_of stamp max offset packet }
    ensures within { result < 15390000000 }
{
    count(stamp, max, offset, packet).rem_euclid(SECOND) as u64
}

/// The grains from the clock's zero to a moment. A negative offset can make them negative.
fn count(stamp: u32, max: u32, offset: i16, packet: u16) -> i64
    requires stamp { stamp < SECOND_TICKS }
    requires max { max < SECOND_TICKS }
    requires packet { packet < FRAME_PACKETS }
    ensures { result ≡ count_of stamp max offset packet }
{
    let ticks = stamp as i64 + max as i64 + offset as i64;
    ticks * TICK as i64 + segment(packet) as i64 * SEGMENT
}

/// How many segments of its frame stand before the data segment of a packet.
fn segment(packet: u16) -> u16
    requires { packet < FRAME_PACKETS }
    ensures segment { result ≡ segment_of packet }
    ensures within { result < 626 }
{
    if packet < FIELD_PACKETS {
        packet + 1
    } else {
        packet + 2
    }
}
