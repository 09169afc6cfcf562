// The engine of `excite`: gives a feed to an exciter, a packet at a time.
use crate::sending::Sending;
use dtx_coder::AIR_SYMBOLS;
use dtx_engine::Shape;
use dtx_exciter::Exciter;
use dtx_exciter::laws::groups_are_spaced;
use dtx_files::LOG_LINE;
use dtx_forms::{CODED_PACKETS, Transmitting, coded_packets};
use dtx_meaning::{Outcome, done};
use dtx_packets::Packet;
use dtx_sizes::{GROUP_PACKETS, PACKET};
use dtx_steps::Step;
use std::alloc::{AllocError, Global};

/// Room for the symbols that an exciter sends for the packets of a piece. They are the symbols of the piece's whole
/// groups, and of one group that began before it. There is room for one group more.
const SENT_BYTES: usize = AIR_SYMBOLS * (CODED_PACKETS / GROUP_PACKETS + 2);

/// Room for the log's lines for these packets, in bytes. A packet brings at most one line.
const LOGGED_BYTES: usize = LOG_LINE * CODED_PACKETS;

/// An exciter, what the last piece brought, and the numbers of all packets so far.
#[derive(Drop)]
pub(crate) struct Excitation {
    address: u16,
    delay: u32,
    exciter: Box<Exciter>,
    sending: Sending<SENT_BYTES, LOGGED_BYTES>,
}

impl Step for Excitation {
    ghost use Rattle.dtx_engine.specs.Made.{both};
    ghost use Rattle.dtx_jobs.specs.Excitation.{HasRoomFor, WasExcited};
    ghost use Rattle.dtx_recipes.specs.Excite.{exciting};
    ghost use Rattle.dtx_recipes.proofs.ExciteLemmas.{excites_none, excites_more};
    ghost use Rattle.dtx_forms.specs.Shapes as shapes;

    ghost shape = { shapes.coded_packets };

    ghost recipe = { λ s. exciting s.address s.delay };

    ghost stands = { WasExcited };

    ghost holds = { λ s. both s.sending.symbols s.sending.lines };

    ghost is_ready = { λ s _ packets. HasRoomFor s packets };

    fn sizes(&self) -> Shape {
        coded_packets()
    }

    fn allows(&self, _index: u64, _unit: &[u8]) -> bool {
        true
    }

    fn clear(&mut self) {
        groups_are_spaced();
        self.sending.clear();
    }

    /// Gives the exciter one packet, which may have any bytes, and gathers what it brings.
    fn step(&mut self, _first: u64, bytes: &mut [u8]) -> usize {
        groups_are_spaced();
        let (packets, _) = bytes.as_chunks::<PACKET>();
        let told = self
            .exciter
            .take(&Packet(packets[0]), &mut self.sending.air);
        self.sending.add(told);
        1
    }

    fn finish(&mut self, loose: usize) -> Outcome {
        done(&self.sending.tally.numbers(loose))
    }

    fn made(&self) -> &[u8] {
        self.sending.symbols.bytes()
    }

    fn log(&self) -> &[u8] {
        self.sending.lines.bytes()
    }

    ghost starts = { λ s. excites_none s.address s.delay };

    ghost grows = { λ s a b whole. excites_more s.address s.delay a b whole };
}

impl Transmitting for Excitation {
    ghost use Rattle.dtx_words.specs.declared.rows.Command.TheVariants as command;
    ghost use Rattle.dtx_recipes.proofs.AnswersLemmas.{excite_knows};
    ghost use Rattle.dtx_recipes.specs.Excite.{exciting};

    ghost command = { command.Excite };

    ghost sends = { exciting };

    fn new(alloc: Global, address: u16, delay: u32) -> Result<Excitation, AllocError> {
        Ok(Excitation {
            address,
            delay,
            exciter: Box::new(alloc, Exciter::new(alloc, address, delay)?)?,
            sending: Sending::new(alloc)?,
        })
    }

    ghost knows = { excite_knows };
}
