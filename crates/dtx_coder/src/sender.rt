//! From a group's bytes that have left the interleaver to its segments.

ghost use Rattle.std.specs.Prelude.{◌≡◌, ◌%◌, ◌<◌, IsTrue};
ghost use Rattle.std.specs.Option.{unwrap_or};
ghost use Rattle.dtx_laws.specs.Branches.{Branching};
ghost use Rattle.dtx_coder.specs.Batches.{InterleavedGroup, IsSent};

use crate::air::Air;
use dtx_sizes::{FIELD_PACKETS, GROUP_BYTES, GROUP_PACKETS, PRECODE};
use dtx_trellis::{States, Twelve};

/// The trellis coders, and the last twelve symbols that were given: all of a coder but its outer coding.
#[derive(Drop)]
pub(crate) struct Sender {
    pub(crate) twelve: Twelve,
    pub(crate) last: [i8; PRECODE],
}

impl Sender {
    /// Codes the interleaved bytes of a group to its segments, as `Coder::group` does. The group stands at place
    /// `first` of a field, which is a second field if `second` is set. The coders start in the states `preset`, or
    /// where there are none, in those that the last group left.
    pub(crate) fn send(
        &mut self,
        first: u16,
        second: bool,
        bytes: &[u8; GROUP_BYTES],
        preset: Option<States>,
        sync: bool,
        air: &mut Air,
    )
        requires in_field { first < FIELD_PACKETS }
        requires whole { first % GROUP_PACKETS ≡ 0 }
        requires begins { IsTrue sync → first ≡ 0 }
        ensures { let given : InterleavedGroup = record {
          first = first;
          second = second;
          sync = sync;
          from = unwrap_or preset self.old.twelve;
          bytes = bytes.now;
        } in
            (held : Branching)
            → IsSent (record { states = self.old.twelve; last = self.old.last; branches = held }) given
            (record { states = self.new.twelve; last = self.new.last; branches = held })
            air.new.segments air.new.symbols }
    {
        start_from(&mut self.twelve, preset);
        air.begin(sync, second, &self.last);
        air.add_group(&mut self.twelve, first, bytes);
        self.last = air.last();
    }
}

/// Sets the coders to the preset states, if there are any.
fn start_from(twelve: &mut Twelve, preset: Option<States>)
    ensures { twelve.new ≡ unwrap_or preset twelve.old }
{
    if let Some(states) = preset {
        twelve.set(states);
    }
}
