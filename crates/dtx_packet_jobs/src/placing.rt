// The engine of `place`: turns null packets into placeholders, at most one in each field.
ghost use Rattle.std.specs.Prelude.{◌≡◌, ◌<◌, true, if◌then◌else◌, length};
ghost use Rattle.dtx_packets.specs.Packets.{pid_of};
ghost use Rattle.dtx_recipes.specs.Place.{as_placeholder};

use dtx_engine::{Change, Shape};
use dtx_forms::{Changing, single_packets};
use dtx_meaning::{Outcome, done};
use dtx_sizes::{FIELD_PACKETS, FLUSHING_PACKETS, NULL_PID, OPERATIONS_PID, SYNC};

/// The first place of a field at which a placeholder is put, counted in packets from the field's first.
const FIRST_PLACE: u64 = FLUSHING_PACKETS as u64;

/// The last place of a field.
const LAST_PLACE: u64 = FIELD_PACKETS as u64 - 1;

/// Turns null packets into placeholders, and counts them.
#[derive(Clone, Copy)]
pub(crate) struct Placing {
    /// The number of packets that became placeholders.
    placed: u64,
    /// The number of whole fields that have no placeholder.
    bare: u64,
    /// Whether the field that is under way has a packet, from place 52 on, in whose place a placeholder may stand.
    found: bool,
}

impl Change for Placing {
    ghost use Rattle.dtx_packets.specs.Packets.{packets_of};
    ghost use Rattle.dtx_packet_jobs.specs.Placing.{IsCounted};
    ghost use Rattle.dtx_recipes.specs.Place.{has_sync, placed_behind, placing_answer};
    ghost use Rattle.dtx_forms.specs.Shapes as shapes;

    ghost shape = { shapes.single_packets };

    ghost allowed = { has_sync };

    ghost changed = { placed_behind };

    ghost answer = { placing_answer };

    ghost tallies = { λ s given. IsCounted s (packets_of given) };

    fn sizes(&self) -> Shape {
        single_packets()
    }

    fn allows(&self, _index: u64, unit: &[u8]) -> bool {
        unit[0] == SYNC
    }

    fn change(&mut self, index: u64, unit: &mut [u8]) {
        let place = index % FIELD_PACKETS as u64;
        let pid = pid(unit);
        let null = pid == NULL_PID;
        let late = place >= FIRST_PLACE;
        let becomes = null & (late & !self.found);
        let found = self.found | (late & (null | (pid == OPERATIONS_PID)));
        let ends = place == LAST_PLACE;
        self.bare += (ends & !found) as u64;
        self.found = !ends & found;
        self.placed += becomes as u64;
        become_placeholder(becomes, unit);
    }

    fn finish(&self, units: u64, loose: usize) -> Outcome {
        let going = units % FIELD_PACKETS as u64 != 0;
        let bare = self.bare + (going & !self.found) as u64;
        done(&[units, self.placed, bare, loose as u64])
    }
}

impl Changing for Placing {
    ghost use Rattle.dtx_words.specs.declared.rows.Command.TheVariants as command;
    ghost use Rattle.dtx_recipes.proofs.AnswersLemmas.{place_knows};

    ghost command = { command.Place };

    fn new() -> Placing {
        Placing {
            placed: 0,
            bare: 0,
            found: false,
        }
    }

    ghost knows = { place_knows };
}

/// The packet identifier of a packet.
fn pid(packet: &[u8]) -> u16
    requires { 2 < length packet.now }
    ensures { result ≡ pid_of packet.now }
{
    u16::from_be_bytes([packet[1] & 0x1F, packet[2]])
}

/// Gives a null packet the packet identifier of a placeholder, if it `becomes` one.
#[tactic(auto, unfolding(dtx_recipes::specs::Place::as_placeholder))]
fn become_placeholder(becomes: bool, packet: &mut [u8])
    requires null { becomes ≡ true → pid_of packet.old ≡ NULL_PID }
    requires long { 2 < length packet.old }
    ensures { packet.new ≡ (if becomes then as_placeholder packet.old else packet.old) }
{
    if becomes {
        packet[2] -= (NULL_PID - OPERATIONS_PID) as u8;
    }
}
