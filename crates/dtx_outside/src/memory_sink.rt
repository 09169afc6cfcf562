// A sink in memory, which tells all bytes that it has taken.
ghost use Rattle.std.specs.Prelude.{◌≡◌, ◌<◌, ◌≤◌, ◌-◌, ◌^◌, ◌↔◌, [], Some, OnOk, OnErr, IfOk, IsErrOf, length};
ghost use Rattle.dtx_outside.specs.Refusals.{IsUnplanned, IsPlanned, failing};
ghost use Rattle.dtx_outside.specs.Counts.{last_count};
ghost use Rattle.dtx_outside.specs.MemorySink.{after_write};
ghost use Rattle.dtx_outside.specs.Sink.{IsCounted, no_sink_counts};

use crate::calls::Calls;
use crate::{Sink, SinkNo, SinkRefusals};
use std::alloc::{AllocError, Global};
use std::marker::Model;

/// Bytes that are printed, in memory.
#[derive(Drop)]
pub struct MemorySink {
    text: Vec<u8>,
    refusals: SinkRefusals,
    writes: Calls,
}

impl Model for MemorySink {
    ghost use Rattle.dtx_outside.specs.MemorySink.{Printed};

    ghost Value = { Printed };

    ghost view = { λ s. record { text = s.text.items; counts = s.refusals; writes = s.writes } };
}

impl MemorySink {
    /// A sink that has taken nothing, with no planned failures.
    pub fn new(alloc: Global) -> MemorySink
        ensures text { result.text ≡ [] }
        ensures counts { result.counts ≡ no_sink_counts }
        ensures writes { IsUnplanned result.writes }
    {
        MemorySink {
            text: Vec::new(alloc),
            refusals: SinkRefusals::new(),
            writes: Calls::new(alloc),
        }
    }

    /// The bytes that were taken.
    pub fn bytes(&self) -> &[u8]
        ensures { result.now ≡ self.now.text }
    {
        &self.text
    }

    /// Plans that the write of that number fails, counted from 0 since `new`. The only error is out of memory.
    pub fn fail(&mut self, nth: u64) -> Result<(), AllocError>
        requires { nth < last_count }
        ensures ok { OnOk result (self.new ≡ record self.old { writes = failing nth self.old.writes }) }
        ensures err { OnErr result (self.new ≡ self.old) }
    {
        self.writes.fail(nth)
    }

    /// How many writes were made since `new`, failed ones included. The count stays at the greatest `u64`.
    pub fn calls(&self) -> u64
        ensures { result ≡ self.now.writes.made }
    {
        self.writes.made()
    }
}

impl Sink for MemorySink {
    ghost written = { λ s. Some s.text };

    ghost counts = { λ s. s.counts };

    fn write(&mut self, bytes: &[u8]) -> Result<usize, SinkNo>
        ensures gone { IsCounted self.old.counts result self.new.counts }
        ensures after { self.new ≡ after_write bytes.now result self.old }

        // It takes all of the piece, or nothing: it fails exactly where that is planned and there is something to take.
        ensures all { IfOk result (λ n. n ≡ length bytes.now) }
        ensures planned { IsErrOf result SinkNo.Failed ↔ (IsPlanned self.old.writes × (0 < length bytes.now)) }
        ensures empty { length bytes.now ≡ 0 → result ≡ Ok 0 }
    {
        let fails = self.writes.count();
        if bytes.is_empty() {
            return Ok(0);
        }
        if fails {
            return self.refusals.note(Err(SinkNo::Failed));
        }
        match self.text.extend_from_slice(bytes) {
            Ok(()) => Ok(bytes.len()),
            Err(_) => self.refusals.note(Err(SinkNo::Memory)),
        }
    }
}
