// The calls of a network.
ghost use Rattle.std.specs.Prelude.{◌≡◌, ◌<◌, ◌++◌, ◌∷◌, [], ℕ, List, Some, IfOk, IfSome, length, slice_get, vec_len};
ghost use Rattle.dtx_plan.specs.declared.transmitter.Transmitter.{Transmitter};
ghost use Rattle.dtx_plan.specs.Sound.{AreTransmitters};
ghost use Rattle.dtx_net.specs.Steps.{lied_packet, Step, restart_step, transmitter_place};
ghost use Rattle.dtx_net.specs.Standing.{StandsFor, AreNew, IsGiven, ChangesOnly};

use super::Net;
use crate::changed::lied_by;
use dtx_coder::Air;
use dtx_exciter::{Exciter, Tables, Told};
use dtx_packets::Packet;
use dtx_plan::{Transmitter, Transmitters};
use dtx_trellis::States;
use std::alloc::{AllocError, Global};

impl Net {
    /// A new network of 1 to 1,020 transmitters, whose addresses differ from each other. All memory is taken here, and
    /// the only error is out of memory.
    pub fn new(alloc: Global, transmitters: &[Transmitter]) -> Result<Net, AllocError>
        requires { AreTransmitters transmitters.now }
        ensures { IfOk result (λ net. StandsFor transmitters.now net []) }
    {
        let tables = Tables::new(alloc)?;
        Ok(Net {
            transmitters: Transmitters::from_slice(alloc, transmitters)?,
            exciters: exciters_of(alloc, &tables, transmitters)?,
            corrector: tables.corrector()?,
        })
    }

    /// An operations packet of the fields that the packet reads as, but with these states, and with right parity bytes
    /// (the profile's own). Byte 0 and the counter stay. A packet that doesn't read stays as it is.
    pub fn lied(&self, packet: &Packet, states: &States) -> Packet
        ensures { result.0 ≡ lied_packet packet.now.0 states.now }
    {
        lied_by(&self.corrector, packet, states)
    }

    /// The place in the list of the transmitter with this address, or `None` exactly if there is none.
    pub fn find(&self, address: u16) -> Option<usize>
        ensures within { IfSome result (λ who. who < vec_len self.now.exciters) }
        ensures place { (ts : List Transmitter) (steps : List Step) → StandsFor ts self.now steps
            → result ≡ transmitter_place address ts }
    {
        self.transmitters.place(address)
    }

    /// Gives one more packet, of any bytes, to the transmitter at place `who` of the list. The answer, and the segments
    /// that `air` then holds, are those of its exciter alone for the packets of its last life and this one. All others
    /// stay.
    pub fn step(&mut self, who: usize, packet: &Packet, air: &mut Air) -> Told
        requires { who < vec_len self.old.exciters }
        ensures given { (ts : List Transmitter) (steps : List Step) (t : Transmitter) → StandsFor ts self.old steps
            → slice_get ts who ≡ Some t
            → IsGiven ts steps who t packet.now.0 self.new result air.new.segments air.new.symbols }
        ensures elsewhere { ChangesOnly who self.old self.new }
    {
        self.exciters[who].take(packet, air)
    }

    /// Begins a new life of the transmitter at place `who` of the list, by resetting its exciter. All others stay.
    pub fn restart(&mut self, who: usize)
        requires { who < vec_len self.old.exciters }
        ensures restarts { (ts : List Transmitter) (steps : List Step) → StandsFor ts self.old steps
            → StandsFor ts self.new (steps ++ restart_step who ∷ []) }
        ensures elsewhere { ChangesOnly who self.old self.new }
    {
        self.exciters[who].reset()
    }
}

/// An exciter for each of the transmitters. They share these tables.
fn exciters_of(
    alloc: Global,
    tables: &Tables,
    transmitters: &[Transmitter],
) -> Result<Vec<Exciter>, AllocError>
    ensures { IfOk result (λ exciters. AreNew (length transmitters.now) transmitters.now exciters.items) }
{
    let mut exciters = Vec::with_capacity(alloc, transmitters.len())?;
    for transmitter in transmitters {
        exciters.push(Exciter::sharing(alloc, tables, transmitter.address, transmitter.delay)?)?;
    }
    Ok(exciters)
}
