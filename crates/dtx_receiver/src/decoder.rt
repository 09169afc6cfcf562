//! From the segments of a run to packets.

ghost use Rattle.std.specs.Prelude.{◌≡◌, ◌+◌, ◌*◌, ◌%◌, ◌≤◌, ◌<◌};

use crate::batch::{Batch, HELD_GROUPS};
use crate::groups::Groups;
use crate::outer_decoding::{OuterDecoding, give, new_outer_decoding};
use crate::receiver::RunReceiver;
use crate::run_decoder::RunDecoder;
use dtx_sizes::{BRANCHES, CODEWORD, GROUP_PACKETS, SEGMENT};
use std::alloc::{AllocError, Global};
use std::marker::Model;

/// Receives segments, corrects the words of their runs, and gives the transport packets. `StandsFor receiver segments`
/// says that the receiver holds what these segments leave.
pub type Receiver = RunReceiver<Decoder>;

/// Decodes the segments of a run to packets, and corrects its words. `Decodes decoder run` says that the decoder holds
/// what the segments of the run leave. Between two calls `groups` holds no bytes of whole groups, since all of these
/// went to the outer decoding.
#[derive(Drop)]
pub struct Decoder {
    groups: Groups,
    inner: OuterDecoding,
    turn: u8,
}

impl Model for Decoder {
    ghost use Rattle.dtx_receiver.specs.Receiver.{Decoding, IsDecoding};

    ghost Value = { Decoding };

    ghost view = { λ d. record {
      levels = d.groups.levels;
      precoder_bits = d.groups.precoder_bits;
      inner = d.inner;
      turn = d.turn;
    } };

    ghost invariant = { λ d. IsDecoding d.groups d.inner d.turn };
}

impl RunDecoder for Decoder {
    ghost use Rattle.dtx_receiver.specs.Bytes.{bytes_in};
    ghost use Rattle.dtx_receiver.specs.Packets.{all_packets, early_of, packets_so_far, run_packets};
    ghost use Rattle.dtx_receiver.specs.Receiver.{Decodes};

    ghost decodes = { Decodes };

    ghost whole = { λ run. run_packets (bytes_in run) };

    ghost early = { λ run. early_of (bytes_in run) };

    ghost given = { packets_so_far };

    ghost all = { all_packets };

    fn new(alloc: Global) -> Result<Decoder, AllocError> {
        Ok(Decoder {
            groups: Groups::new(),
            inner: new_outer_decoding(alloc)?,
            turn: 0,
        })
    }

    fn known(&self) {}

    fn begin(&mut self, sync: &[i8; SEGMENT]) {
        self.groups.begin(sync);
        self.inner.start();
        self.turn = 0;
    }

    fn take(&mut self, place: u16, segment: &[i8; SEGMENT], batch: &mut Batch) {
        self.groups.take(place, segment);
        if place % 4 == 3 {
            let given = self.groups.give(&mut self.inner, batch);
            self.turn = turn_behind(self.turn, given);
        }
    }

    fn take_all(&mut self, place: u16, segments: &[[u8; SEGMENT]], batch: &mut Batch) {
        self.groups.take_all(place, segments);
        let given = self.groups.give(&mut self.inner, batch);
        self.turn = turn_behind(self.turn, given);
    }

    fn end(&mut self, batch: &mut Batch) {
        if self.turn == 0 {
            give(&mut self.inner, &[0; CODEWORD], batch);
        }
    }
}

/// The number of data segments in whole groups, modulo 52, after `groups` groups more.
fn turn_behind(turn: u8, groups: usize) -> u8
    requires turn { turn < BRANCHES }
    requires groups { groups ≤ HELD_GROUPS }
    ensures turn { result ≡ (turn + GROUP_PACKETS * groups) % BRANCHES }
    ensures within { result < BRANCHES }
{
    ((turn as usize + GROUP_PACKETS * groups) % BRANCHES) as u8
}
