// The engine of `repeat`: receives symbols and sends their packets again, some segments at a time.
ghost use Rattle.std.specs.Prelude.{◌≡◌, ◌+◌, ◌*◌, ◌<◌, ◌≤◌, ◌∷◌, [], ℕ, ℤ, List, length};
ghost use Rattle.dtx_engine.specs.Made.{both, only};
ghost use Rattle.dtx_repeat.specs.GoingOn.{longer};
ghost use Rattle.dtx_repeat.specs.Lives.{lives, lives_so_far, packets_in};
ghost use Rattle.dtx_recipes.specs.Repeat.{repeated_numbers};
ghost use Rattle.dtx_jobs.specs.Repetition.{IsSending, IsSentOn};

use crate::sending::Sending;
use dtx_coder::AIR_SYMBOLS;
use dtx_engine::Shape;
use dtx_exciter::laws::groups_are_spaced;
use dtx_files::LOG_LINE;
use dtx_forms::{PIECE_SEGMENTS, Transmitting, segments};
use dtx_meaning::{Outcome, Status, done, ended};
use dtx_packets::Packet;
use dtx_receiver::{Batch, Received};
use dtx_repeat::Repeater;
use dtx_sizes::{GROUP_PACKETS, MOST_SEGMENTS, SEGMENT};
use dtx_steps::Step;
use std::alloc::{AllocError, Global};

/// Room for the packets that the segments of a piece, and the end behind them, bring. Each segment, and the end, brings
/// no more than one group of them.
const BROUGHT: usize = GROUP_PACKETS * (PIECE_SEGMENTS + 1);

/// Room for the symbols that are sent for these packets. They are the symbols of the packets' whole groups, and of one
/// group that began before them. There is room for one group more.
const SENT_BYTES: usize = AIR_SYMBOLS * (BROUGHT / GROUP_PACKETS + 2);

/// Room for the log's lines for these packets, in bytes, with a restart at each segment.
const LOGGED_BYTES: usize = LOG_LINE * (BROUGHT + PIECE_SEGMENTS);

/// The largest number of packets that all segments, and the end behind them, bring.
const MOST_BROUGHT: u64 = GROUP_PACKETS as u64 * (MOST_SEGMENTS + 1);

/// A repeater, what the last piece brought, and the numbers of all segments so far.
#[derive(Drop)]
pub(crate) struct Repetition {
    address: u16,
    delay: u32,
    repeater: Box<Repeater>,
    batch: Batch,
    segments: u64,
    runs: u64,
    sending: Sending<SENT_BYTES, LOGGED_BYTES>,
}

impl Repetition {
    /// The numbers of the command's line, in their order. `loose` bytes are behind the last whole segment.
    fn numbers(&self, loose: usize) -> [u64; 7]
        ensures { result ≡ repeated_numbers self.now.segments self.now.runs self.now.sending.tally loose }
    {
        let tally = &self.sending.tally;
        [
            self.segments,
            self.runs,
            tally.packets,
            tally.segments,
            tally.presets,
            tally.mutes,
            loose as u64,
        ]
    }
}

impl Step for Repetition {
    ghost use Rattle.dtx_recipes.specs.Repeat.{repeating};
    ghost use Rattle.dtx_recipes.proofs.RepeatLemmas.{repeats_none, repeats_more};
    ghost use Rattle.dtx_jobs.specs.Repetition.{HasRoomFor, WasRepeated};
    ghost use Rattle.dtx_forms.specs.Shapes as shapes;

    ghost shape = { shapes.segments };

    ghost recipe = { λ s. repeating s.address s.delay };

    ghost stands = { WasRepeated };

    ghost holds = { λ s. both s.sending.symbols s.sending.lines };

    ghost is_ready = { λ s _ segments. HasRoomFor s segments };

    fn sizes(&self) -> Shape {
        segments()
    }

    fn allows(&self, _index: u64, _unit: &[u8]) -> bool {
        true
    }

    fn clear(&mut self) {
        groups_are_spaced();
        self.sending.clear();
    }

    /// Receives the first of the segments, as many as the repeater takes at once, and gathers what they bring.
    fn step(&mut self, _first: u64, bytes: &mut [u8]) -> usize {
        let (segments, _) = bytes.as_chunks::<SEGMENT>();
        let progress = self.repeater.take_some(segments, &mut self.batch);
        self.sending.restart(progress.runs, self.runs);
        self.segments += progress.segments as u64;
        self.runs += progress.runs;
        send_all(
            &mut self.repeater,
            self.batch.packets.as_slice(),
            &mut self.sending,
        );
        progress.segments
    }

    fn finish(&mut self, loose: usize) -> Outcome {
        end(&mut self.repeater, &mut self.batch, &mut self.sending);
        if self.runs == 0 {
            ended(Status::NoSync)
        } else {
            done(&self.numbers(loose))
        }
    }

    fn made(&self) -> &[u8] {
        self.sending.symbols.bytes()
    }

    fn log(&self) -> &[u8] {
        self.sending.lines.bytes()
    }

    ghost starts = { λ s. repeats_none s.address s.delay };

    ghost grows = { λ s a b whole. repeats_more s.address s.delay a b whole };
}

impl Transmitting for Repetition {
    ghost use Rattle.dtx_words.specs.declared.rows.Command.TheVariants as command;
    ghost use Rattle.dtx_recipes.proofs.AnswersLemmas.{repeat_knows};
    ghost use Rattle.dtx_recipes.specs.Repeat.{repeating};

    ghost command = { command.Repeat };

    ghost sends = { repeating };

    fn new(alloc: Global, address: u16, delay: u32) -> Result<Repetition, AllocError> {
        Ok(Repetition {
            address,
            delay,
            repeater: Box::new(alloc, Repeater::new(alloc, address, delay)?)?,
            batch: Batch::new(),
            segments: 0,
            runs: 0,
            sending: Sending::new(alloc)?,
        })
    }

    ghost knows = { repeat_knows };
}

/// Gives these packets to the exciter, and gathers what they bring. They belong to the exciter's last life. The room
/// for symbols is counted in packets, each a fourth of a group. It is that for three packets of a group that began
/// before them, for all of them but the last, and for the group that the last one may bring.
fn send_all(
    repeater: &mut Repeater,
    packets: &[Received],
    sending: &mut Sending<SENT_BYTES, LOGGED_BYTES>,
)
    requires some { (a : ℕ) × (d : ℕ) × (s : List (List ℤ)) × (ls : List (List (List ℕ)))
        × IsSending a d repeater.old sending.old.tally s ls × (ls ≡ [] → packets.now ≡ []) }
    requires few { sending.old.tally.packets + length packets.now ≤ MOST_BROUGHT }
    requires symbols { 4 * length sending.old.symbols + AIR_SYMBOLS * (length packets.now + 6) ≤ 4 * SENT_BYTES }
    requires lines { length sending.old.lines + LOG_LINE * length packets.now ≤ LOGGED_BYTES }
    ensures sent { (a d : ℕ) (s : List (List ℤ)) (ls : List (List (List ℕ)))
        → IsSending a d repeater.old sending.old.tally s ls → (ls ≡ [] → packets.now ≡ [])
        → IsSentOn a d repeater.new sending.old sending.new s ls (longer ls (packets_in packets.now))
        (length packets.now) }
    ensures short { length sending.new.lines ≤ length sending.old.lines + LOG_LINE * length packets.now }
    ensures count { sending.new.tally.packets ≡ sending.old.tally.packets + length packets.now }
{
    groups_are_spaced();
    for i in 0..packets.len() {
        send(repeater, &packets[i].packet, sending);
    }
}

/// Gives the exciter one packet more, and gathers what it brings.
fn send(repeater: &mut Repeater, packet: &Packet, sending: &mut Sending<SENT_BYTES, LOGGED_BYTES>)
    requires some { (a : ℕ) × (d : ℕ) × (s : List (List ℤ)) × (ls : List (List (List ℕ)))
        × IsSending a d repeater.old sending.old.tally s ls × (0 < length ls) }
    requires few { sending.old.tally.packets < MOST_BROUGHT }
    requires symbols { length sending.old.symbols + AIR_SYMBOLS ≤ SENT_BYTES }
    requires lines { length sending.old.lines + LOG_LINE ≤ LOGGED_BYTES }
    ensures sent { (a d : ℕ) (s : List (List ℤ)) (ls : List (List (List ℕ)))
        → IsSending a d repeater.old sending.old.tally s ls → 0 < length ls
        → IsSentOn a d repeater.new sending.old sending.new s ls (longer ls (packet.now.0 ∷ [])) 1 }
    ensures short { length sending.new.lines ≤ length sending.old.lines + LOG_LINE }
    ensures count { sending.new.tally.packets ≡ sending.old.tally.packets + 1 }
{
    groups_are_spaced();
    let told = repeater.send(packet, &mut sending.air);
    sending.add(told);
}

/// Ends the repeater's input, and gathers what the end brings.
fn end(repeater: &mut Repeater, batch: &mut Batch, sending: &mut Sending<SENT_BYTES, LOGGED_BYTES>)
    requires some { (a : ℕ) × (d : ℕ) × (s : List (List ℤ))
        × IsSending a d repeater.old sending.old.tally s (lives_so_far s) }
    requires few { sending.old.tally.packets ≤ GROUP_PACKETS * MOST_SEGMENTS }
    requires empty { both sending.old.symbols sending.old.lines ≡ only [] }
    ensures { (a d : ℕ) (s : List (List ℤ)) → IsSending a d repeater.old sending.old.tally s (lives_so_far s)
        → IsSentOn a d repeater.new sending.old sending.new [] (lives_so_far s) (lives s)
        (length batch.new.packets.items) }
{
    repeater.finish(batch);
    send_all(repeater, batch.packets.as_slice(), sending);
}
