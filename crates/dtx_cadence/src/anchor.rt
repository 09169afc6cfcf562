// The anchor of the packets that were given.
ghost use Rattle.std.specs.Prelude.{◌≡◌, ◌<◌, ℕ, [], ◌∷◌, ◌++◌, List};
ghost use Rattle.dtx_cadence.specs.Anchor.{StandsFor, IsSeen, seen, is_lost, moved_on, kept_after, answer};

use dtx_sizes::{FRAME_PACKETS, MARK};
use std::marker::Model;

/// What becomes of the anchor with one more packet, and the place of that packet.
#[derive(Clone, Copy, PartialEq, Eq)]
pub enum Seen {
    /// There was no anchor, and there is none.
    Free,
    /// There was none, and this packet is the anchor.
    Start,
    /// There was one, and there is none: two marks that were due in a row are missing, the second with this packet.
    Lost,
    /// The anchor stays, and this packet stands at this place behind it, modulo 624.
    At(u16),
}

/// Where the next packet stands under an anchor, and whether the anchor ends with the next missing mark.
#[derive(Clone, Copy)]
struct Lock {
    /// The place of the next packet, from 0 to 623; a mark is due at 0.
    place: u16,
    /// Whether the mark that was due last is missing.
    missed: bool,
}

/// The anchor of the packets whose sync bytes were given (the profile's own). The anchor is a first mark. It stays
/// until two marks that are due in a row are missing, whatever marks stand elsewhere.
#[derive(Drop)]
pub struct Anchor {
    lock: Option<Lock>,
}

impl Model for Anchor {
    ghost use Rattle.std.specs.Prelude.{◌<◌, Option, IfSome};
    ghost use Rattle.dtx_cadence.specs.declared.anchor.Lock.{Lock};

    ghost Value = { Option Lock };

    ghost view = { λ a. a.lock };

    ghost invariant = { λ a. IfSome a.lock (λ l. l.place < 624) };
}

impl Anchor {
    /// A new value, without an anchor, which was given no sync byte.
    pub fn new() -> Anchor
        ensures { StandsFor result [] }
    {
        Anchor { lock: None }
    }

    /// Takes the sync byte of the next packet, and answers what becomes of the anchor.
    pub fn see(&mut self, sync: u8) -> Seen
        ensures place { IsSeen result }
        ensures seen { (syncs : List ℕ) → StandsFor self.old syncs → result ≡ seen syncs sync }
        ensures stands { (syncs : List ℕ) → StandsFor self.old syncs → StandsFor self.new (syncs ++ sync ∷ []) }
    {
        self.step(sync)
    }

    fn step(&mut self, sync: u8) -> Seen
        ensures place { IsSeen result }
        ensures answer { result ≡ answer self.old sync }
        ensures kept { self.new ≡ kept_after self.old sync }
    {
        let is_mark = sync == MARK;
        match self.lock {
            Some(lock) => {
                if is_lost(lock, is_mark) {
                    self.lock = None;
                    return Seen::Lost;
                }
                self.lock = Some(moved_on(lock, is_mark));
                Seen::At(lock.place)
            }
            None if is_mark => {
                self.lock = Some(Lock {
                    place: 1,
                    missed: false,
                });
                Seen::Start
            }
            None => Seen::Free,
        }
    }
}

/// Whether a packet ends the anchor.
fn is_lost(lock: Lock, is_mark: bool) -> bool
    ensures { result ≡ is_lost lock is_mark }
{
    lock.place == 0 && !is_mark && lock.missed
}

/// The state after a packet with which the anchor stays.
fn moved_on(lock: Lock, is_mark: bool) -> Lock
    requires { lock.place < 624 }
    ensures { result ≡ moved_on lock is_mark }
{
    Lock {
        place: (lock.place + 1) % FRAME_PACKETS,
        missed: if lock.place == 0 {
            !is_mark
        } else {
            lock.missed
        },
    }
}
