// The exciters of a network, and what they write to files.
ghost use Rattle.std.specs.Prelude.{◌≡◌, ◌+◌, ◌<◌, ◌≤◌, ◌^◌, ◌++◌, ◌∷◌, [], List, Some, IfErr, IfOk, IfSome, IsOk};
ghost use Rattle.std.specs.Prelude.{length, replicate, take};
ghost use Rattle.dtx_outside.specs.Counts.{HasGone, blame_of_write};
ghost use Rattle.dtx_outside.specs.Shelf.{Files};
ghost use Rattle.dtx_meaning.specs.Meaning.{with_outputs};
ghost use Rattle.dtx_meaning.specs.Status.{blame_of_answer};
ghost use Rattle.dtx_net.specs.Steps.{Step, packet_step, transmitter_place, restart_step};
ghost use Rattle.dtx_plan.specs.Sound.{AreTransmitters};
ghost use Rattle.dtx_plan.specs.declared.transmitter.Transmitter.{Transmitter};
ghost use Rattle.dtx_schedule.specs.Playout.{Brings, AreNames, HasTransmitter, IsSomePlayout, IsPlayout};
ghost use Rattle.dtx_schedule.specs.PlayedSoFar.{IsDoneOf, IsOfFeed, IsPlayedSoFar, IsWrittenOf};
ghost use Rattle.dtx_schedule.specs.TransmitterFiles.{played_outputs};

use crate::pair::{FileNames, append_both, names_of};
use arrayvec::ArrayString;
use dtx_coder::{AIR_SYMBOLS, Air};
use dtx_files::{LOG_LINE, bring, write_line, write_restart};
use dtx_meaning::Status;
use dtx_net::Net;
use dtx_outside::{Shelf, WriteNo};
use dtx_packets::Packet;
use dtx_plan::Transmitter;
use std::alloc::{AllocError, Global};

/// The exciters of a network, what the last step brought, and the numbers of all steps so far.
#[derive(Drop)]
pub(crate) struct Playout {
    pub(crate) net: Net,
    air: Air,
    /// The names of the files of each transmitter, in the plan's order.
    pub(crate) names: Vec<FileNames>,
    /// The first bytes are the symbols that the last step brought, one byte each in two's complement.
    bytes: [u8; AIR_SYMBOLS],
    /// The line of the log that the last step brought, or nothing.
    line: ArrayString<LOG_LINE>,
    /// How many segments each transmitter has sent, in the plan's order.
    pub(crate) sent: Vec<u64>,
    /// How many packets were given so far.
    pub(crate) steps: u64,
}

impl Playout {
    /// A network of these transmitters, in which no step was done. Takes all memory. The only error is out of memory.
    #[tactic(auto, using(crate::proofs::PlayoutOn::none_sent, crate::proofs::PlayoutOn::none_few, crate::proofs::PlayoutOn::none_given))]
    pub(crate) fn new(alloc: Global, transmitters: &[Transmitter]) -> Result<Playout, AllocError>
        requires { AreTransmitters transmitters.now }
        ensures { IfOk result (λ playout. IsPlayout transmitters.now playout []) }
    {
        Ok(Playout {
            net: Net::new(alloc, transmitters)?,
            air: Air::new(),
            names: names_of_all(alloc, transmitters)?,
            bytes: [0; AIR_SYMBOLS],
            line: ArrayString::new(),
            sent: vec![in alloc; 0; transmitters.len()]?,
            steps: 0,
        })
    }

    /// The place in the plan's list of the transmitter with this address, or `None` where there is none.
    pub(crate) fn find(&self, address: u16) -> Option<usize>
        ensures place { (ts : List Transmitter) (steps : List Step) → IsPlayout ts self.now steps
            → result ≡ transmitter_place address ts }
        ensures there { IsSomePlayout self.now → IfSome result (λ who. HasTransmitter who self.now) }
    {
        self.net.find(address)
    }

    /// Gives the transmitter at a place of the list one packet more, which may have any bytes. Appends the symbols that
    /// the transmitter sends for it, and then the line of its log. Nothing is appended where there are no symbols or no
    /// line.
    #[tactic(auto, using(crate::proofs::Refusals::write_of_feed))]
    pub(crate) fn give<S: Shelf>(
        &mut self,
        shelf: &mut S,
        who: usize,
        packet: &Packet,
    ) -> Result<(), Status>
        requires there { HasTransmitter who self.old }
        requires most { self.old.steps < 2 ^ 60 }
        ensures done { (ts : List Transmitter) (held : Files) (before : List Step)
            → IsPlayedSoFar ts before held self.old (S.files shelf.old)
            → IsDoneOf ts (before ++ packet_step who packet.now.0 ∷ []) held result self.new (S.files shelf.new) }
        ensures there { IsOk result → HasTransmitter who self.new }
        ensures steps { IsOk result → self.new.steps ≡ self.old.steps + 1 }
        ensures refusal { IfErr result IsOfFeed }
        ensures gone { HasGone (S.counts shelf.old) (S.counts shelf.new) (blame_of_answer result) }
    {
        let count = self.take(who, packet);
        self.write(shelf, who, count)?;
        Ok(())
    }

    /// Restarts the transmitter at a place of the list, and appends the restart's line to its log.
    #[tactic(auto, using(crate::proofs::Refusals::write_of_feed))]
    pub(crate) fn restart<S: Shelf>(&mut self, shelf: &mut S, who: usize) -> Result<(), Status>
        requires there { HasTransmitter who self.old }
        requires most { self.old.steps < 2 ^ 60 }
        ensures done { (ts : List Transmitter) (held : Files) (before : List Step)
            → IsPlayedSoFar ts before held self.old (S.files shelf.old)
            → IsDoneOf ts (before ++ restart_step who ∷ []) held result self.new (S.files shelf.new) }
        ensures there { IsOk result → HasTransmitter who self.new }
        ensures steps { IsOk result → self.new.steps ≡ self.old.steps }
        ensures refusal { IfErr result IsOfFeed }
        ensures gone { HasGone (S.counts shelf.old) (S.counts shelf.new) (blame_of_answer result) }
    {
        self.renew(who);
        self.write(shelf, who, 0)?;
        Ok(())
    }

    /// Gives the transmitter at a place of the list one packet more. Returns how many bytes of symbols the packet
    /// brings.
    fn take(&mut self, who: usize, packet: &Packet) -> usize
        requires there { HasTransmitter who self.old }
        requires most { self.old.steps < 2 ^ 60 }
        ensures bound { result ≤ AIR_SYMBOLS }
        ensures playing { (ts : List Transmitter) (steps : List Step) → IsPlayout ts self.old steps
            → IsPlayout ts self.new (steps ++ packet_step who packet.now.0 ∷ []) }
        ensures brings { (ts : List Transmitter) (steps : List Step) → IsPlayout ts self.old steps
            → Brings ts steps (packet_step who packet.now.0) (take result self.new.bytes) self.new.line.bytes }
        ensures steps { self.new.steps ≡ self.old.steps + 1 }
    {
        let told = self.net.step(who, packet, &mut self.air);
        let segments = self.air.segments;
        write_line(told, self.sent[who], segments, &mut self.line);
        self.sent[who] += segments as u64;
        self.steps += 1;
        bring(&self.air, &mut self.bytes)
    }

    /// Restarts the transmitter at a place of the list, which brings no symbols.
    fn renew(&mut self, who: usize)
        requires there { HasTransmitter who self.old }
        requires most { self.old.steps < 2 ^ 60 }
        ensures playing { (ts : List Transmitter) (steps : List Step) → IsPlayout ts self.old steps
            → IsPlayout ts self.new (steps ++ restart_step who ∷ []) }
        ensures brings { (ts : List Transmitter) (steps : List Step) → IsPlayout ts self.old steps
            → Brings ts steps (restart_step who) [] self.new.line.bytes }
        ensures steps { self.new.steps ≡ self.old.steps }
    {
        self.net.restart(who);
        write_restart(self.sent[who], &mut self.line);
    }

    /// Appends the first `count` bytes of the symbols, and the line, to the files of the transmitter at a place of the
    /// list.
    fn write<S: Shelf>(&self, shelf: &mut S, who: usize, count: usize) -> Result<(), WriteNo>
        requires within { who < length self.now.names.items }
        requires bound { count ≤ AIR_SYMBOLS }
        ensures written { (ts : List Transmitter) (held : Files) (steps : List Step) (step : Step) → step.who ≡ who
            → AreTransmitters ts → AreNames ts self.now.names.items
            → Brings ts steps step (take count self.now.bytes) self.now.line.bytes
            → S.files shelf.old ≡ with_outputs (played_outputs ts steps) (Some held)
            → IsWrittenOf ts (steps ++ step ∷ []) held result (S.files shelf.new) }
        ensures gone { HasGone (S.counts shelf.old) (S.counts shelf.new) (blame_of_write result) }
    {
        let line = self.line.as_str().as_bytes();
        append_both(shelf, &self.names[who], &self.bytes[..count], line)
    }
}

/// The names of the files of each transmitter, in the plan's order.
fn names_of_all(alloc: Global, transmitters: &[Transmitter]) -> Result<Vec<FileNames>, AllocError>
    ensures { IfOk result (λ names. AreNames transmitters.now names.items) }
{
    let mut names = Vec::with_capacity(alloc, transmitters.len())?;
    for transmitter in transmitters {
        names.push(names_of(transmitter.address))?;
    }
    Ok(names)
}
