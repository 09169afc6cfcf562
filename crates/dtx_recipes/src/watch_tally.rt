// The numbers of the notes on a feed.
ghost use Rattle.std.specs.Prelude.{◌≡◌, ◌≤◌, []};
ghost use Rattle.dtx_recipes.specs.Watch.{watch_tally, watch_numbers, one_slip, one_jump, HasRoom, tally_of_one};

use dtx_watch::{ClockNote, Note, NoteKind, StatesNote};

/// The number of packets watched, and of the notes of each kind: operations packets at their places, states that slip,
/// stamps that jump, operations packets that don't read, and operations packets that aren't at their places.
#[derive(Clone, Copy)]
pub struct WatchTally {
    pub packets: u64,
    pub ops: u64,
    pub slips: u64,
    pub jumps: u64,
    pub unread: u64,
    pub stray: u64,
}

impl WatchTally {
    /// All zeros: nothing was watched.
    pub fn new() -> WatchTally
        ensures { result ≡ watch_tally 0 [] }
    {
        WatchTally {
            packets: 0,
            ops: 0,
            slips: 0,
            jumps: 0,
            unread: 0,
            stray: 0,
        }
    }

    /// Counts one note more.
    pub fn add(&mut self, note: &Note)
        requires { HasRoom self.old 1 }
        ensures { self.new ≡ tally_of_one self.old note.now.what }
    {
        match note.what {
            NoteKind::Lock | NoteKind::Lost => {}
            NoteKind::Unread(_) => self.unread += 1,
            NoteKind::Stray { .. } => self.stray += 1,
            NoteKind::Ops(ops) => {
                self.ops += 1;
                self.slips += one_slip(ops.states);
                self.jumps += one_jump(ops.clock);
            }
        }
    }

    /// The numbers of the command's line, in their order. `loose` bytes are behind the last whole packet.
    pub fn numbers(&self, loose: usize) -> [u64; 7]
        ensures { result ≡ watch_numbers self.now loose }
    {
        [
            self.packets,
            self.ops,
            self.slips,
            self.jumps,
            self.unread,
            self.stray,
            loose as u64,
        ]
    }
}

fn one_slip(states: StatesNote) -> u64
    ensures is { result ≡ one_slip states }
    ensures few { result ≤ 1 }
{
    match states {
        StatesNote::Slip => 1,
        _ => 0,
    }
}

fn one_jump(clock: ClockNote) -> u64
    ensures is { result ≡ one_jump clock }
    ensures few { result ≤ 1 }
{
    match clock {
        ClockNote::Jump => 1,
        _ => 0,
    }
}
