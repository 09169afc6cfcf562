// The engine of `dvb read`: reads back a stream of the outer coding of DVB, one piece of blocks at a time.
ghost use Rattle.std.specs.Prelude.{◌≡◌, ◌+◌, ◌*◌, ◌/◌, ◌%◌, ◌<◌, ◌≤◌, ◌++◌, ◌∷◌, [], ℕ, List, length, take, drop};
ghost use Rattle.dtx_dvb.specs.Given.{all_given, given};
ghost use Rattle.dtx_dvb.specs.Read.{Read, fixed_of, flag_of};
ghost use Rattle.dtx_dvb.specs.Reading.{read_dvb};
ghost use Rattle.dtx_dvb.specs.Stream.{HasRead};
ghost use Rattle.dtx_recipes.specs.DvbRead.{bytes_of_reads};
ghost use Rattle.dtx_packet_jobs.specs.DvbReading.{IsBounded, HasGathered, IsReading};

use crate::dvb_shapes::{BATCH_BYTES, BATCH_PACKETS, blocks};
use dtx_dvb::{BLOCK, DvbIn, FOUR, FOUR_BLOCKS, WAITING};
use dtx_engine::{Buffer, Shape};
use dtx_forms::Stepping;
use dtx_meaning::{Outcome, done};
use dtx_outer::Taken;
use dtx_packets::{PIECE_PACKETS, Packet};
use dtx_sizes::{MOST_PACKETS, PACKET};
use dtx_steps::Step;
use std::alloc::{AllocError, Global};

/// Room for the packets that a piece brings, in bytes.
const READ_BYTES: usize = PACKET * PIECE_PACKETS;

/// How many fours of blocks a batch has.
const BATCH_FOURS: usize = BATCH_PACKETS / FOUR;

/// The packets of a batch, in fours.
type PacketRoom = [[[u8; PACKET]; FOUR]; BATCH_FOURS];

/// The answers of a batch's blocks, in fours.
type AnswerRoom = [[Taken; FOUR]; BATCH_FOURS];

/// Reads a stream back. The blocks of a piece go in batches of whole fours, and its last few one by one.
#[derive(Drop)]
pub(crate) struct DvbReading {
    reader: Box<DvbIn>,
    packets: Box<PacketRoom>,
    taken: Box<AnswerRoom>,
    gathered: Gathered,
}

/// What came of the blocks that were read.
#[derive(Drop)]
struct Gathered {
    /// The packets that the last piece brought, one behind another.
    packets: Buffer<READ_BYTES>,
    /// The number of blocks given so far.
    blocks: u64,
    /// The number of bytes put right.
    fixed: u64,
    /// The number of packets that are flagged.
    flagged: u64,
}

impl DvbReading {
    /// Reads the first of these blocks, and returns how many: a batch of whole fours, or one where there are no four.
    /// Afterwards their bytes are others.
    fn read(&mut self, bytes: &mut [u8]) -> usize
        requires some { 0 < length bytes.old / BLOCK }
        requires room { length self.old.gathered.packets + PACKET * (length bytes.old / BLOCK) ≤ READ_BYTES }
        requires most { self.old.gathered.blocks + length bytes.old / BLOCK ≤ MOST_PACKETS }
        requires bounded { IsBounded self.old.gathered }
        ensures some { 0 < result }
        ensures within { result ≤ length bytes.old / BLOCK }
        ensures rest { drop (BLOCK * result) bytes.new ≡ drop (BLOCK * result) bytes.old }
        ensures read { (given before : List ℕ) → IsReading self.old given before
            → IsReading self.new (given ++ take (BLOCK * result) bytes.old) before }
        ensures blocks { self.new.gathered.blocks ≡ self.old.gathered.blocks + result }
        ensures bounded { IsBounded self.new.gathered }
        ensures long { length self.new.gathered.packets ≤ length self.old.gathered.packets + PACKET * result }
    {
        let fours = (bytes.len() / FOUR_BLOCKS).min(BATCH_FOURS);
        if fours == 0 {
            let (blocks, _) = bytes.as_chunks::<BLOCK>();
            self.read_one(&blocks[0]);
            return 1;
        }
        self.read_batch(&mut bytes[..FOUR_BLOCKS * fours]);
        FOUR * fours
    }

    /// Reads whole fours of blocks together, at most a batch. Afterwards `bytes` holds other bytes.
    fn read_batch(&mut self, bytes: &mut [u8])
        requires whole { length bytes.old % FOUR_BLOCKS ≡ 0 }
        requires few { length bytes.old ≤ BATCH_BYTES }
        requires room { length self.old.gathered.packets + PACKET * (length bytes.old / BLOCK) ≤ READ_BYTES }
        requires most { self.old.gathered.blocks + length bytes.old / BLOCK ≤ MOST_PACKETS }
        requires bounded { IsBounded self.old.gathered }
        ensures read { (given before : List ℕ) → IsReading self.old given before
            → IsReading self.new (given ++ bytes.old) before }
        ensures blocks { self.new.gathered.blocks ≡ self.old.gathered.blocks + length bytes.old / BLOCK }
        ensures bounded { IsBounded self.new.gathered }
        ensures long { length self.new.gathered.packets
            ≤ length self.old.gathered.packets + PACKET * (length bytes.old / BLOCK) }
    {
        read_through(
            &mut self.reader,
            bytes,
            &mut self.packets,
            &mut self.taken,
            &mut self.gathered,
        );
    }

    /// Reads one block.
    fn read_one(&mut self, block: &[u8; BLOCK])
        requires room { length self.old.gathered.packets + PACKET ≤ READ_BYTES }
        requires most { self.old.gathered.blocks < MOST_PACKETS }
        requires bounded { IsBounded self.old.gathered }
        ensures read { (given before : List ℕ) → IsReading self.old given before
            → IsReading self.new (given ++ block.now) before }
        ensures blocks { self.new.gathered.blocks ≡ self.old.gathered.blocks + 1 }
        ensures bounded { IsBounded self.new.gathered }
        ensures long { length self.new.gathered.packets ≤ length self.old.gathered.packets + PACKET }
    {
        let mut packet = Packet([0; PACKET]);
        let taken = self.reader.block(block, &mut packet);
        self.gathered.gather(taken, &packet.0);
    }
}

impl Gathered {
    /// Counts the blocks of a batch and appends what they give, each as `gather` does.
    fn gather_batch(&mut self, taken: &[[Taken; FOUR]], packets: &[[[u8; PACKET]; FOUR]])
        requires same { length taken.now ≡ length packets.now }
        requires room { length self.old.packets + PACKET * (FOUR * length packets.now) ≤ READ_BYTES }
        requires most { self.old.blocks + FOUR * length packets.now ≤ MOST_PACKETS }
        requires bounded { IsBounded self.old }
        ensures gathered { (reads : List Read) (before : List ℕ) → HasGathered self.old reads before
            → HasGathered self.new (reads ++ all_given taken.now packets.now) before }
        ensures blocks { self.new.blocks ≡ self.old.blocks + FOUR * length packets.now }
        ensures bounded { IsBounded self.new }
        ensures long { length self.new.packets
            ≤ length self.old.packets + PACKET * (FOUR * length packets.now) }
    {
        for p in 0..FOUR * packets.len() {
            self.gather(taken[p / FOUR][p % FOUR], &packets[p / FOUR][p % FOUR]);
        }
    }

    /// Counts a block and what it gives. Appends its packet, if it gives one, to the gathered packets.
    fn gather(&mut self, taken: Taken, packet: &[u8; PACKET])
        requires room { length self.old.packets + PACKET ≤ READ_BYTES }
        requires most { self.old.blocks < MOST_PACKETS }
        requires bounded { IsBounded self.old }
        ensures gathered { (reads : List Read) (before : List ℕ) → HasGathered self.old reads before
            → HasGathered self.new (reads ++ given taken packet.now) before }
        ensures blocks { self.new.blocks ≡ self.old.blocks + 1 }
        ensures bounded { IsBounded self.new }
        ensures long { length self.new.packets ≤ length self.old.packets + PACKET }
    {
        self.blocks += 1;
        self.fixed += fixed_by(taken);
        self.flagged += flagged_by(taken);
        self.packets.push(bytes_given(taken, packet));
    }
}

impl Step for DvbReading {
    ghost use Rattle.std.specs.Prelude.{◌≤◌, ◌+◌, ◌*◌, length};
    ghost use Rattle.dtx_engine.specs.Made.{only};
    ghost use Rattle.dtx_recipes.specs.DvbRead.{dvb_reading};
    ghost use Rattle.dtx_recipes.proofs.DvbReadLemmas.{reads_none, reads_more};
    ghost use Rattle.dtx_packet_jobs.specs.DvbReading.{WasRead};
    ghost use Rattle.dtx_recipes.specs.DvbCode as shapes;
    ghost use Rattle.dtx_packet_jobs.specs.declared.dvb_reading.TheConstants.{READ_BYTES};
    ghost use Rattle.dtx_sizes.specs.declared.packets.TheConstants.{PACKET};

    ghost shape = { shapes.blocks };

    ghost recipe = { λ _. dvb_reading };

    ghost stands = { WasRead };

    ghost holds = { λ s. only s.gathered.packets };

    ghost is_ready = { λ s _ count. length s.gathered.packets + PACKET * count ≤ READ_BYTES };

    fn sizes(&self) -> Shape {
        blocks()
    }

    fn allows(&self, _index: u64, _unit: &[u8]) -> bool {
        true
    }

    fn clear(&mut self) {
        self.gathered.packets.clear();
    }

    fn step(&mut self, _first: u64, bytes: &mut [u8]) -> usize {
        self.read(bytes)
    }

    fn finish(&mut self, loose: usize) -> Outcome {
        let packets = self.gathered.blocks.saturating_sub(WAITING as u64);
        done(&[
            self.gathered.blocks,
            packets,
            self.gathered.fixed,
            self.gathered.flagged,
            loose as u64,
        ])
    }

    fn made(&self) -> &[u8] {
        self.gathered.packets.bytes()
    }

    fn log(&self) -> &[u8] {
        &[]
    }

    ghost starts = { λ _. reads_none };

    ghost grows = { λ _ a b whole. reads_more a b whole };
}

impl Stepping for DvbReading {
    ghost use Rattle.dtx_words.specs.declared.rows.Command.TheVariants as command;
    ghost use Rattle.dtx_recipes.proofs.AnswersLemmas.{dvb_read_knows};
    ghost use Rattle.dtx_recipes.specs.DvbRead.{dvb_reading};

    ghost command = { command.DvbRead };

    ghost makes = { dvb_reading };

    fn new(alloc: Global) -> Result<DvbReading, AllocError> {
        Ok(DvbReading {
            reader: Box::new(alloc, DvbIn::new(alloc)?)?,
            packets: Box::new(alloc, [[[0; PACKET]; FOUR]; BATCH_FOURS])?,
            taken: Box::new(alloc, [[Taken::None; FOUR]; BATCH_FOURS])?,
            gathered: Gathered {
                packets: Buffer::new(alloc)?,
                blocks: 0,
                fixed: 0,
                flagged: 0,
            },
        })
    }

    ghost knows = { dvb_read_knows };
}

/// Does the work of `read_batch`. The caller lends the room for what the blocks give.
fn read_through(
    reader: &mut DvbIn,
    bytes: &mut [u8],
    packets: &mut PacketRoom,
    taken: &mut AnswerRoom,
    gathered: &mut Gathered,
)
    requires whole { length bytes.old % FOUR_BLOCKS ≡ 0 }
    requires few { length bytes.old ≤ BATCH_BYTES }
    requires room { length gathered.old.packets + PACKET * (length bytes.old / BLOCK) ≤ READ_BYTES }
    requires most { gathered.old.blocks + length bytes.old / BLOCK ≤ MOST_PACKETS }
    requires bounded { IsBounded gathered.old }
    ensures stands { (given : List ℕ) → HasRead given reader.old → HasRead (given ++ bytes.old) reader.new }
    ensures gathered { (given before : List ℕ) → HasRead given reader.old
        → HasGathered gathered.old (read_dvb given) before
        → HasGathered gathered.new (read_dvb (given ++ bytes.old)) before }
    ensures blocks { gathered.new.blocks ≡ gathered.old.blocks + length bytes.old / BLOCK }
    ensures bounded { IsBounded gathered.new }
    ensures long { length gathered.new.packets
        ≤ length gathered.old.packets + PACKET * (length bytes.old / BLOCK) }
{
    let fours = bytes.len() / FOUR_BLOCKS;
    let packets = &mut packets[..fours];
    let taken = &mut taken[..fours];
    reader.batch(bytes, packets, taken);
    gathered.gather_batch(taken, packets);
}

/// How many bytes of the word were put right.
fn fixed_by(taken: Taken) -> u64
    ensures fixed { result ≡ fixed_of taken }
    ensures few { result ≤ 255 }
{
    match taken {
        Taken::Good { fixed } => fixed as u64,
        _ => 0,
    }
}

/// 1 where the packet is flagged, else 0.
fn flagged_by(taken: Taken) -> u64
    ensures flagged { result ≡ flag_of taken }
    ensures one { result ≤ 1 }
{
    match taken {
        Taken::Bad => 1,
        _ => 0,
    }
}

/// The bytes that are written: the packet's, or none where no packet was given.
fn bytes_given(taken: Taken, packet: &[u8; PACKET]) -> &[u8]
    ensures bytes { result.now ≡ bytes_of_reads (given taken packet.now) }
    ensures few { length result.now ≤ PACKET }
{
    match taken {
        Taken::None => &[],
        _ => packet,
    }
}
