// All exciters of a network.
ghost use Rattle.std.specs.Prelude.{◌≡◌, length, vec_len};

mod steps;

use dtx_exciter::{Corrector, Exciter};
use dtx_plan::Transmitters;
use std::rc::Rc;

/// The exciters of a network, each at the place of its transmitter in the plan's list. The caller gives packets to them
/// and restarts them one by one, in any order. What one exciter is given has no effect on another one (the profile's
/// own).
#[derive(Drop)]
pub struct Net {
    transmitters: Transmitters,
    exciters: Vec<Exciter>,
    /// The corrector of the exciters, with which `lied` reads and writes operations packets.
    corrector: Rc<Corrector>,
    ghost same: { length transmitters ≡ vec_len exciters },
}
