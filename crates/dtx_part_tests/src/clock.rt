// Worked numbers of the clock.

use crate::expect::expect;
use dtx_clock::{Late, Moment, hold, moment, runs, stamp};

/// The tick at which frame 0 begins, a frame, and its stamp.
static STAMPS: [(u32, u32, u32); 7] = [
    (0, 0, 0),
    (0, 1, 483943),
    (0, 2, 967887),
    (0, 20, 9678879),
    (0, 21, 162823),
    (9999999, 0, 9999999),
    (9999999, 1, 483942),
];

#[test]
fn stamps_of_frames_come_from_one_division(rt: HostRuntime) {
    for i in 0..STAMPS.len() {
        let (start, frame, tick) = STAMPS[i];
        expect(&rt, stamp(start, frame) == tick, i);
    }
}

/// Two stamps, how many frames lie between them, and whether a clock runs so.
static RUNS: [(u32, u32, u32, bool); 12] = [
    // 1 frame lasts 483,943 ticks and 1,483 grains
    (0, 483943, 1, true),
    (0, 483944, 1, true),
    (0, 483942, 1, false),
    (0, 483945, 1, false),
    // 21 frames last more than a second, and no sum of rounded frames
    (0, 162823, 21, true),
    (0, 162824, 21, true),
    (0, 162803, 21, false),
    // over the end of a second
    (9999999, 483942, 1, true),
    (7, 7, 0, true),
    (7, 8, 0, false),
    // 1,539 frames last whole ticks
    (0, 4789760, 1539, true),
    (0, 4789761, 1539, false),
];

#[test]
fn a_clock_runs_by_the_length_of_frames_rounded_down_or_up(rt: HostRuntime) {
    for i in 0..RUNS.len() {
        let (from, to, frames, is_right) = RUNS[i];
        expect(&rt, runs(from, to, frames) == is_right, i);
    }
}

/// The maximum delay, a transmitter's offset and delay, and for how long it holds what it sends.
static HOLDS: [(u32, i16, u32, Result<u32, Late>); 6] = [
    (5000000, -10, 1000, Ok(4998990)),
    (5000000, -10, 4999990, Ok(0)),
    (5000000, -10, 4999991, Err(Late)),
    (0, -32768, 0, Err(Late)),
    (0, 32767, 32767, Ok(0)),
    (9999999, 32767, 4294967295, Err(Late)),
];

#[test]
fn a_packet_is_held_until_its_delay_is_made_up(rt: HostRuntime) {
    for i in 0..HOLDS.len() {
        let (max, offset, delay, held) = HOLDS[i];
        expect(&rt, hold(max, offset, delay) == held, i);
    }
}

/// A stamp, the maximum delay, an offset, a packet's place, and the tick and the grain of its moment.
static MOMENTS: [(u32, u32, i16, u16, u32, u16); 10] = [
    (0, 5000000, -10, 100, 5078070, 640),
    (0, 5000000, -10, 412, 5320042, 612),
    (483943, 5000000, -10, 100, 5562013, 640),
    (483943, 5000000, -10, 412, 5803985, 612),
    (162823, 5000000, -10, 100, 5240893, 640),
    (0, 5000000, -10, 52, 5040962, 1372),
    (0, 5000000, -10, 312, 5242735, 85),
    (0, 5000000, 25, 100, 5078105, 640),
    // segment 1 begins 773 ticks and 113 grains after the frame
    (0, 0, -773, 0, 0, 113),
    (0, 0, -774, 0, 9999999, 113),
];

#[test]
fn moments_are_those_of_a_worked_log_and_before_the_zero_of_the_clock_in_the_second_before(
    rt: HostRuntime,
) {
    for i in 0..MOMENTS.len() {
        let (stamp, max, offset, packet, tick, grain) = MOMENTS[i];
        expect(
            &rt,
            moment(stamp, max, offset, packet) == Moment { tick, grain },
            i,
        );
    }
}
