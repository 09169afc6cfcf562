//! Where the least paths begin.

ghost use Rattle.std.specs.Prelude.{◌≡◌, ◌≢◌, ℕ, ◌-◌, ◌<◌, [], ◌∷◌, slice_index_or, nat_lt, if◌then◌else◌};
ghost use Rattle.dtx_pins.specs.Trace.{AreStarts, IsStart, stand_at, x2_of};

use dtx_sizes::CODERS;
use dtx_soft::{LANES, least_of};

/// Where a path stands: the former Z2, the state 2 * q1 + q0, and the cost so far.
#[derive(Drop)]
pub(crate) struct Stand {
    pub(crate) former: u16,
    pub(crate) q1: u16,
    pub(crate) q0: u16,
    pub(crate) cost: u32,
}

/// Where the path of each coder stands. The lanes behind the coders aren't used.
#[derive(Drop)]
pub(crate) struct Stands {
    pub(crate) former: [u16; LANES],
    pub(crate) q1: [u16; LANES],
    pub(crate) q0: [u16; LANES],
    pub(crate) cost: [u32; LANES],
}

/// The stands from which the least paths of all coders begin, under the pins of the first step.
pub(crate) fn starts(first: &[u16; CODERS], behind: &[[[u32; 4]; 2]; CODERS]) -> Stands
    ensures { AreStarts (first.now ∷ []) (λ e. slice_index_or behind.now e []) result }
{
    let mut stands = Stands {
        former: [0; LANES],
        q1: [0; LANES],
        q0: [0; LANES],
        cost: [0; LANES],
    };
    for e in 0..CODERS {
        put_stand(start_of(first_x2(first[e]), &behind[e]), e, &mut stands);
    }
    stands
}

/// Writes the stand of a coder.
fn put_stand(stand: Stand, e: usize, stands: &mut Stands)
    requires { e < LANES }
    ensures written { stand_at stands.new e ≡ stand }
    ensures others { (k : ℕ) → k ≢ e → stand_at stands.new k ≡ stand_at stands.old k }
{
    stands.former[e] = stand.former;
    stands.q1[e] = stand.q1;
    stands.q0[e] = stand.q0;
    stands.cost[e] = stand.cost;
}

/// X2 of a pin, or 0 where it tells none.
fn first_x2(pin: u16) -> u8
    ensures { result ≡ x2_of pin }
{
    if pin / 2 == 1 { 1 } else { 0 }
}

/// The state of least cost, the first of several, and the former Z2 with which it comes to that. Of two equal ones it
/// is `x2`, since the first level then has Z2 = 0.
fn start_of(x2: u8, behind: &[[u32; 4]; 2]) -> Stand
    requires { x2 < 2 }
    ensures { (pin : ℕ) → x2_of pin ≡ x2 → IsStart pin behind.now result }
{
    let costs = [
        behind[0][0].min(behind[1][0]),
        behind[0][1].min(behind[1][1]),
        behind[0][2].min(behind[1][2]),
        behind[0][3].min(behind[1][3]),
    ];
    let state = least_of(&costs);
    let former = better(
        x2,
        behind[x2 as usize][state as usize],
        behind[1 - x2 as usize][state as usize],
    );
    Stand {
        former: former as u16,
        q1: (state / 2) as u16,
        q0: (state % 2) as u16,
        cost: 0,
    }
}

/// The former Z2 of the lesser cost, `x2` where both are equal.
fn better(x2: u8, cost: u32, other: u32) -> u8
    requires { x2 < 2 }
    ensures { result ≡ if nat_lt other cost then 1 - x2 else x2 }
{
    if other < cost { 1 - x2 } else { x2 }
}
