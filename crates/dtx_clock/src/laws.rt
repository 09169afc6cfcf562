//! Laws of stamps and moments.

ghost use Rattle.std.specs.Prelude.{◌≡◌, ℕ, ◌+◌, ◌*◌, ◌<◌, true, ℤ, pos, ◌-ℤ◌, ◌*ℤ◌};
ghost use Rattle.dtx_clock.specs.Clock.{stamp_of, runs, grains_of, moment_of, DifferBy};

/// A running clock gets from the stamp of any frame to that of any later one, whatever the tick at which frame 0
/// begins.
pub fn stamps_run()
    ensures { (start frame frames : ℕ) → runs (stamp_of start frame) (stamp_of start (frame + frames)) frames ≡ true }
{}

/// The moments of one packet at two transmitters differ by the difference of their offsets, in ticks of 1539 grains,
/// plus some whole seconds.
pub fn moments_differ_by_offsets()
    ensures { (stamp max place : ℕ) (a b : ℤ)
        → DifferBy (grains_of stamp max a place) (grains_of stamp max b place) ((a -ℤ b) *ℤ pos 1539) }
{}

/// A moment's ticks are below a second, and the grains behind them below a tick. Together they are the moment's grains.
pub fn moments_are_within_a_second()
    ensures tick { (stamp max place : ℕ) (offset : ℤ) → (moment_of stamp max offset place).tick < 10000000 }
    ensures grain { (stamp max place : ℕ) (offset : ℤ) → (moment_of stamp max offset place).grain < 1539 }
    ensures grains { (stamp max place : ℕ) (offset : ℤ)
        → (moment_of stamp max offset place).tick * 1539 + (moment_of stamp max offset place).grain
        ≡ grains_of stamp max offset place }
{}
