// The engine of `code`: codes a stream, one piece of packets at a time.
ghost use Rattle.std.specs.Prelude.{◌≡◌, ◌+◌, ◌-◌, ◌*◌, ◌/◌, ◌%◌, ◌≤◌, ◌++◌, ℕ, List, length, min};
ghost use Rattle.dtx_coder.specs.Groups.{StandsFor};
ghost use Rattle.dtx_coder.specs.Stream.{a53};
ghost use Rattle.dtx_recipes.specs.SymbolFile.{symbol_bytes};

use crate::symbol_buffer::SymbolBuffer;
use dtx_coder::{AIR_SYMBOLS, Air, BATCH_PACKETS, Batch, Coder};
use dtx_engine::Shape;
use dtx_forms::{CODED_PACKETS, Stepping, coded_packets};
use dtx_meaning::{Outcome, done};
use dtx_sizes::{
    FIELD_PACKETS, GROUP_PACKETS, MARK, MOST_PACKETS, PACKET, SEGMENT, SYNC, field_place,
};
use dtx_steps::Step;
use std::alloc::{AllocError, Global};

/// The number of groups in a field.
const FIELD_GROUPS: u64 = (FIELD_PACKETS as usize / GROUP_PACKETS) as u64;

/// Room for the symbols of a piece's groups.
const CODED_BYTES: usize = AIR_SYMBOLS * (CODED_PACKETS / GROUP_PACKETS);

/// Codes a stream. Each piece begins with a group. The packets behind the stream's last whole group are not sent. The
/// packets of a piece are interleaved in batches, and the groups of a batch are then sent one by one.
#[derive(Drop)]
pub(crate) struct StreamCoder {
    coder: Box<Coder>,
    air: Air,
    /// The last batch as it left the interleaver.
    batch: Batch,
    /// The symbols that the last piece brought.
    symbols: SymbolBuffer<CODED_BYTES>,
    /// The number of packets given so far.
    packets: u64,
}

impl StreamCoder {
    /// Codes whole groups of one field, at most a batch. Their first packet is packet `first` of the stream.
    fn code_batch(&mut self, first: u64, packets: &[[u8; PACKET]])
        requires grouped { first % GROUP_PACKETS ≡ 0 }
        requires whole { length packets.now % GROUP_PACKETS ≡ 0 }
        requires few { length packets.now ≤ BATCH_PACKETS }
        requires in_field { first % FIELD_PACKETS + length packets.now ≤ FIELD_PACKETS }
        requires most { first + length packets.now ≤ MOST_PACKETS }
        requires room { length self.old.symbols + AIR_SYMBOLS * (length packets.now / GROUP_PACKETS) ≤ CODED_BYTES }
        ensures coder { (before : List (List ℕ)) → length before ≡ first → StandsFor self.old.coder.value before
            → StandsFor self.new.coder.value (before ++ packets.now) }
        ensures brought { (before : List (List ℕ)) (bytes : List ℕ) → length before ≡ first
            → StandsFor self.old.coder.value before
            → symbol_bytes before ≡ bytes ++ self.old.symbols
            → symbol_bytes (before ++ packets.now) ≡ bytes ++ self.new.symbols }
        ensures long { length self.new.symbols
            ≤ length self.old.symbols + AIR_SYMBOLS * (length packets.now / GROUP_PACKETS) }
    {
        self.batch.interleave(&mut self.coder, first, packets);
        for i in 0..packets.len() / GROUP_PACKETS {
            let place = first + (GROUP_PACKETS * i) as u64;
            self.batch.send(&mut self.coder, place, i, &mut self.air);
            let count = SEGMENT * self.air.segments as usize;
            self.symbols.push(&self.air.symbols[..count]);
        }
    }
}

impl Step for StreamCoder {
    ghost use Rattle.dtx_engine.specs.Made.{only};
    ghost use Rattle.dtx_forms.specs.Shapes as shapes;
    ghost use Rattle.dtx_recipes.specs.Code.{coding};
    ghost use Rattle.dtx_recipes.proofs.CodeLemmas.{codes_none, codes_more};
    ghost use Rattle.dtx_jobs.specs.StreamCoder.{IsReadyFor, WasCoded};

    ghost shape = { shapes.coded_packets };

    ghost recipe = { λ _. coding };

    ghost stands = { WasCoded };

    ghost holds = { λ s. only s.symbols };

    ghost is_ready = { IsReadyFor };

    fn sizes(&self) -> Shape {
        coded_packets()
    }

    fn allows(&self, _index: u64, unit: &[u8]) -> bool {
        unit[0] == SYNC || unit[0] == MARK
    }

    fn clear(&mut self) {
        self.symbols.clear();
    }

    /// Codes the whole groups of a batch. Packets behind the stream's last whole group are counted alone.
    fn step(&mut self, first: u64, bytes: &mut [u8]) -> usize {
        let (packets, _) = bytes.as_chunks::<PACKET>();
        let count = batch_packets(first, packets.len());
        self.code_batch(first, &packets[..count - count % GROUP_PACKETS]);
        self.packets = first + count as u64;
        count
    }

    fn finish(&mut self, loose: usize) -> Outcome {
        done(&[self.packets, segments_of(self.packets), loose as u64])
    }

    fn made(&self) -> &[u8] {
        self.symbols.bytes()
    }

    fn log(&self) -> &[u8] {
        &[]
    }

    ghost starts = { λ _. codes_none };

    ghost grows = { λ _ a b whole. codes_more a b whole };
}

impl Stepping for StreamCoder {
    ghost use Rattle.dtx_words.specs.declared.rows.Command.TheVariants as command;
    ghost use Rattle.dtx_recipes.proofs.AnswersLemmas.{code_knows};
    ghost use Rattle.dtx_recipes.specs.Code.{coding};

    ghost command = { command.Code };

    ghost makes = { coding };

    fn new(alloc: Global) -> Result<StreamCoder, AllocError> {
        Ok(StreamCoder {
            coder: Box::new(alloc, Coder::new(alloc)?)?,
            air: Air::new(),
            batch: Batch::new(),
            symbols: SymbolBuffer::new(alloc)?,
            packets: 0,
        })
    }

    ghost knows = { code_knows };
}

/// How many of the `left` packets are interleaved at once: at most a batch, and none of the next field. The first one
/// is packet `first` of the stream.
fn batch_packets(first: u64, left: usize) -> usize
    ensures { result ≡ min (min BATCH_PACKETS left) (FIELD_PACKETS - first % FIELD_PACKETS) }
{
    let field = FIELD_PACKETS - field_place(first).place;
    BATCH_PACKETS.min(left).min(field as usize)
}

/// The number of segments of a stream of that many packets (ATSC A/53 Part 2). Each whole group has four, and each
/// field that a whole group begins has a field sync.
fn segments_of(packets: u64) -> u64
    requires { packets ≤ MOST_PACKETS }
    ensures { (stream : List (List ℕ)) → length stream ≡ packets → result ≡ length (a53 stream) }
{
    let groups = packets / GROUP_PACKETS as u64;
    GROUP_PACKETS as u64 * groups + groups.div_ceil(FIELD_GROUPS)
}
