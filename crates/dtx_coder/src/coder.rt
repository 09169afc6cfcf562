//! Codes one group after another.

ghost use Rattle.std.specs.Prelude.{◌≡◌, ◌+◌, ◌*◌, ◌%◌, ◌<◌, ◌≤◌, EachIndex, IfOk, IsTrue, length, map, slice_index};
ghost use Rattle.std.specs.Option.{unwrap_or};
ghost use Rattle.dtx_laws.specs.Branches.{HasWidths, spreading};
ghost use Rattle.dtx_coder.specs.Groups.{Group, IsCoded, new_coding, aligned_coding};
ghost use Rattle.dtx_coder.specs.Batches.{InterleavedGroup, IsAhead, IsSent};
ghost use Rattle.dtx_coder.specs.Runs.{AreStates};

use crate::air::Air;
use crate::outer_coding::{OuterCoding, code_packets, interleave_packets, new_outer_coding};
use crate::sender::Sender;
use crate::tables::Tables;
use dtx_packets::Packet;
use dtx_sizes::{
    BRANCH_STEP, BRANCHES, CODERS, CODEWORD, FIELD_PACKETS, GROUP_BYTES, GROUP_PACKETS, PACKET,
    PRECODE,
};
use dtx_trellis::{States, Twelve};
use std::alloc::{AllocError, Global};
use std::marker::Model;

/// Codes the packets of a stream, four at a time, to the symbols of their segments (ATSC A/53 Part 2). Contracts see
/// the value as the states of its twelve trellis coders, the last twelve symbols that it gave, and the interleaver's
/// branches.
///
/// `group` does all for one group. It is faster to interleave many packets by one call of `interleave`, and then to
/// `send` their groups one by one, as a [`Batch`](crate::Batch) does. The result is the same (`laws::batches`). This
/// needs that no group's states depend on later packets.
#[derive(Drop)]
pub struct Coder {
    outer: OuterCoding,
    sender: Sender,
    /// The bytes of the last group: its codewords, one after another, which the bytes that left the interleaver then
    /// replaced. They are kept here so that no call has to clear them first: each group writes all of them.
    bytes: [u8; GROUP_BYTES],
}

impl Model for Coder {
    ghost use Rattle.dtx_coder.specs.Groups.{Coding, IsAtsc};

    ghost Value = { Coding };

    ghost view = { λ c. record {
      states = c.sender.twelve;
      last = c.sender.last;
      branches = c.outer.branches;
    } };

    ghost invariant = { λ c. IsAtsc c.outer };
}

impl Coder {
    /// A new coder: all trellis coders in state 0, zeros in every branch, and -7 as each of the last twelve symbols.
    /// The only error is out of memory.
    pub fn new(alloc: Global) -> Result<Coder, AllocError>
        ensures { IfOk result (λ coder. coder ≡ new_coding) }
    {
        Coder::sharing(alloc, &Tables::new(alloc)?)
    }

    /// A new coder, which uses tables that others may share. The only error is out of memory.
    pub fn sharing(alloc: Global, tables: &Tables) -> Result<Coder, AllocError>
        ensures { IfOk result (λ coder. coder ≡ new_coding) }
    {
        Ok(Coder {
            outer: new_outer_coding(alloc, tables)?,
            sender: Sender {
                twelve: Twelve::new(),
                last: [-7; PRECODE],
            },
            bytes: [0; GROUP_BYTES],
        })
    }

    /// What holds of every coder. Branch i of the interleaver's 52 has 4 * i bytes. There are twelve states, each below
    /// 8, and twelve last symbols.
    pub fn known(&self)
        ensures branches { HasWidths BRANCHES (spreading BRANCH_STEP) self.now.branches }
        ensures states { AreStates self.now.states }
        ensures last { length self.now.last ≡ PRECODE }
    {
        let _ = &self.outer;
        let _ = self.sender.twelve.states();
        twelve_symbols(&self.sender.last);
    }

    /// The states of trellis coders 0 to 11.
    pub fn states(&self) -> States
        ensures states { result ≡ self.now.states }
        ensures long { length result ≡ CODERS }
        ensures small { EachIndex result (λ e. slice_index result e < 8) }
    {
        self.sender.twelve.states()
    }

    /// Makes the next byte go to branch 0 of the interleaver. All else stays, the branches' bytes too.
    pub fn align(&mut self)
        ensures { self.new ≡ aligned_coding self.old }
    {
        self.outer.align();
    }

    /// Codes the four packets at the places `first` to `first` + 3 of a field, which is a second field if `second` is
    /// set. The trellis coders start in the states `preset`, or where there are none, in those that the last group
    /// left. `air` is set to the four data segments. If `sync` is set, a field sync stands before them, which ends with
    /// the last twelve symbols given before.
    pub fn group(
        &mut self,
        first: u16,
        second: bool,
        packets: &[Packet; GROUP_PACKETS],
        preset: Option<States>,
        sync: bool,
        air: &mut Air,
    )
        requires in_field { first < FIELD_PACKETS }
        requires whole { first % GROUP_PACKETS ≡ 0 }
        requires begins { IsTrue sync → first ≡ 0 }
        ensures { let given : Group = record {
          first = first;
          second = second;
          sync = sync;
          from = unwrap_or preset self.old.states;
          packets = map (λ p. p.0) packets.now;
        } in
            IsCoded self.old given self.new air.new.segments air.new.symbols }
    {
        code_packets(&mut self.outer, first as usize, packets, &mut self.bytes);
        self.sender
            .send(first, second, &self.bytes, preset, sync, air);
    }

    /// Interleaves the codewords of whole groups, and sets `bytes` to what leaves the interleaver meanwhile, 207 bytes
    /// for each packet. The first packet stands at place `first` of its field, and all stand in this field. The states
    /// and the last symbols stay: `send` moves them on. The caller sends these groups, in order, before it interleaves
    /// more.
    pub fn interleave(&mut self, first: u16, packets: &[[u8; PACKET]], bytes: &mut [u8])
        requires whole { length packets.now % GROUP_PACKETS ≡ 0 }
        requires in_field { first + length packets.now ≤ FIELD_PACKETS }
        requires room { length bytes.old ≡ CODEWORD * length packets.now }
        ensures { IsAhead self.old first packets.now bytes.new self.new }
    {
        interleave_packets(&mut self.outer, first as usize, packets, bytes);
    }

    /// Sends a group that has left the interleaver as these bytes. It does what `group` does, but the branches stay.
    pub fn send(
        &mut self,
        first: u16,
        second: bool,
        bytes: &[u8; GROUP_BYTES],
        preset: Option<States>,
        sync: bool,
        air: &mut Air,
    )
        requires in_field { first < FIELD_PACKETS }
        requires whole { first % GROUP_PACKETS ≡ 0 }
        requires begins { IsTrue sync → first ≡ 0 }
        ensures { let given : InterleavedGroup = record {
          first = first;
          second = second;
          sync = sync;
          from = unwrap_or preset self.old.states;
          bytes = bytes.now;
        } in
            IsSent self.old given self.new air.new.segments air.new.symbols }
    {
        self.sender.send(first, second, bytes, preset, sync, air);
    }
}

/// The array has twelve symbols.
fn twelve_symbols(last: &[i8; PRECODE])
    ensures { length last.now ≡ PRECODE }
{}
