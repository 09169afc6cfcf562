// The engine of `dvb code`: sends a stream by the outer coding of DVB, one piece of packets at a time.
ghost use Rattle.std.specs.Prelude.{◌≡◌, ◌==◌, ◌+◌, ◌*◌, ◌/◌, ◌%◌, ◌<◌, ◌≤◌, ◌++◌, ◌∷◌, [], ℕ, List};
ghost use Rattle.std.specs.Prelude.{if◌then◌else◌, length, take};
ghost use Rattle.dtx_packet_jobs.specs.DvbReading.{IsSending};

use crate::dvb_shapes::{BATCH_BYTES, BATCH_PACKETS, DVB_PIECE_PACKETS, dvb_packets};
use dtx_dvb::{BLOCK, DvbOut, FOUR, PERIOD_PACKETS};
use dtx_engine::{Buffer, Shape};
use dtx_forms::Stepping;
use dtx_meaning::{Outcome, done};
use dtx_packets::Packet;
use dtx_sizes::{PACKET, SYNC};
use dtx_steps::Step;
use std::alloc::{AllocError, Global};

/// Room for the bytes that are sent for a piece.
const SENT_BYTES: usize = BLOCK * DVB_PIECE_PACKETS;

/// Sends a stream. Packets that stand in whole halves of groups of eight go in batches, all others one by one.
#[derive(Drop)]
pub(crate) struct DvbCoding {
    coder: Box<DvbOut>,
    /// The bytes that were sent for the last piece.
    sent: Buffer<SENT_BYTES>,
    /// The number of packets given so far.
    packets: u64,
}

impl DvbCoding {
    /// Sends the first of these packets, and returns how many: a batch of whole fours, or one where no whole four
    /// begins with it. The first packet is packet `first` of the stream.
    fn send(&mut self, first: u64, packets: &[[u8; PACKET]]) -> usize
        requires some { 0 < length packets.now }
        requires room { length self.old.sent + BLOCK * length packets.now ≤ SENT_BYTES }
        ensures some { 0 < result }
        ensures within { result ≤ length packets.now }
        ensures sent { (given : List (List ℕ)) (before : List ℕ) → length given ≡ first
            → IsSending self.old given before → IsSending self.new (given ++ take result packets.now) before }
        ensures long { length self.new.sent ≡ length self.old.sent + BLOCK * result }
    {
        let fours = in_fours(first, packets.len().min(BATCH_PACKETS));
        if fours == 0 {
            self.send_one(first, &packets[0]);
            return 1;
        }
        self.send_batch(first, &packets[..fours]);
        fours
    }

    /// Sends whole fours of packets together, at most a batch. The first packet is packet `first` of the stream.
    fn send_batch(&mut self, first: u64, packets: &[[u8; PACKET]])
        requires whole { length packets.now % FOUR ≡ 0 }
        requires aligned { first % FOUR ≡ 0 }
        requires few { length packets.now ≤ BATCH_PACKETS }
        requires room { length self.old.sent + BLOCK * length packets.now ≤ SENT_BYTES }
        ensures sent { (given : List (List ℕ)) (before : List ℕ) → length given ≡ first
            → IsSending self.old given before → IsSending self.new (given ++ packets.now) before }
        ensures long { length self.new.sent ≡ length self.old.sent + BLOCK * length packets.now }
    {
        let place = (first % PERIOD_PACKETS as u64) as u8;
        let mut room = [0; BATCH_BYTES];
        let out = &mut room[..BLOCK * packets.len()];
        self.coder.batch(place, packets, out);
        self.sent.push(out);
    }

    /// Sends packet `number` of the stream.
    fn send_one(&mut self, number: u64, packet: &[u8; PACKET])
        requires room { length self.old.sent + BLOCK ≤ SENT_BYTES }
        ensures sent { (packets : List (List ℕ)) (before : List ℕ) → length packets ≡ number
            → IsSending self.old packets before → IsSending self.new (packets ++ packet.now ∷ []) before }
        ensures long { length self.new.sent ≡ length self.old.sent + BLOCK }
    {
        let place = (number % PERIOD_PACKETS as u64) as u8;
        let mut out = [0; BLOCK];
        self.coder.packet(place, &Packet(*packet), &mut out);
        self.sent.push(&out);
    }
}

impl Step for DvbCoding {
    ghost use Rattle.std.specs.Prelude.{◌≤◌, ◌+◌, ◌*◌, length};
    ghost use Rattle.dtx_engine.specs.Made.{only};
    ghost use Rattle.dtx_recipes.specs.DvbCode.{dvb_coding};
    ghost use Rattle.dtx_recipes.proofs.DvbCodeLemmas.{sends_none, sends_more};
    ghost use Rattle.dtx_packet_jobs.specs.DvbReading.{WasSent};
    ghost use Rattle.dtx_recipes.specs.DvbCode as shapes;
    ghost use Rattle.dtx_dvb.specs.declared.sizes.TheConstants.{BLOCK};
    ghost use Rattle.dtx_packet_jobs.specs.declared.dvb_coding.TheConstants.{SENT_BYTES};

    ghost shape = { shapes.dvb_packets };

    ghost recipe = { λ _. dvb_coding };

    ghost stands = { WasSent };

    ghost holds = { λ s. only s.sent };

    ghost is_ready = { λ s _ count. length s.sent + BLOCK * count ≤ SENT_BYTES };

    fn sizes(&self) -> Shape {
        dvb_packets()
    }

    fn allows(&self, _index: u64, unit: &[u8]) -> bool {
        unit[0] == SYNC
    }

    fn clear(&mut self) {
        self.sent.clear();
    }

    fn step(&mut self, first: u64, bytes: &mut [u8]) -> usize {
        let (packets, _) = bytes.as_chunks::<PACKET>();
        let count = self.send(first, packets);
        self.packets = first + count as u64;
        count
    }

    fn finish(&mut self, loose: usize) -> Outcome {
        done(&[self.packets, loose as u64])
    }

    fn made(&self) -> &[u8] {
        self.sent.bytes()
    }

    fn log(&self) -> &[u8] {
        &[]
    }

    ghost starts = { λ _. sends_none };

    ghost grows = { λ _ a b whole. sends_more a b whole };
}

impl Stepping for DvbCoding {
    ghost use Rattle.dtx_words.specs.declared.rows.Command.TheVariants as command;
    ghost use Rattle.dtx_recipes.proofs.AnswersLemmas.{dvb_code_knows};
    ghost use Rattle.dtx_recipes.specs.DvbCode.{dvb_coding};

    ghost command = { command.DvbCode };

    ghost makes = { dvb_coding };

    fn new(alloc: Global) -> Result<DvbCoding, AllocError> {
        Ok(DvbCoding {
            coder: Box::new(alloc, DvbOut::new(alloc)?)?,
            sent: Buffer::new(alloc)?,
            packets: 0,
        })
    }

    ghost knows = { dvb_code_knows };
}

/// How many of `count` packets stand in whole halves of groups of eight. The first one is packet `first` of the stream.
fn in_fours(first: u64, count: usize) -> usize
    ensures fours { result ≡ (if first % FOUR == 0 then FOUR * (count / FOUR) else 0) }
    ensures within { result ≤ count }
    ensures whole { result % FOUR ≡ 0 }
    ensures aligned { 0 < result → first % FOUR ≡ 0 }
{
    if first % FOUR as u64 == 0 {
        return FOUR * (count / FOUR);
    }
    0
}
