// How often the calls of a sink were refused.
ghost use Rattle.std.specs.Prelude.{◌≡◌, ◌≤◌};
ghost use Rattle.dtx_outside.specs.Sink.{IsCounted, counts_printed, no_sink_counts};

use crate::SinkNo;
use std::marker::Model;

/// How often printing failed, and how often it lacked memory. Each count stays at the greatest `u64`.
#[derive(Drop)]
pub struct SinkRefusals {
    faults: u64,
    shortages: u64,
}

impl Model for SinkRefusals {
    ghost use Rattle.dtx_outside.specs.Sink.{SinkCounts, sink_counts_code};

    ghost Value = { SinkCounts };

    ghost coded = { sink_counts_code };

    ghost view = { λ c. record { faults = c.faults; shortages = c.shortages } };
}

impl SinkRefusals {
    /// Both counts at 0.
    pub fn new() -> SinkRefusals
        ensures { result ≡ no_sink_counts }
    {
        SinkRefusals {
            faults: 0,
            shortages: 0,
        }
    }

    /// Counts the refusal in a write's result, if any, and returns the result.
    pub fn note(&mut self, printed: Result<usize, SinkNo>) -> Result<usize, SinkNo>
        ensures counted { self.new ≡ counts_printed printed self.old }
        ensures gone { IsCounted self.old printed self.new }
        ensures same { result ≡ printed }
    {
        match printed {
            Ok(_) => {}
            Err(SinkNo::Failed) => self.faults = self.faults.saturating_add(1),
            Err(SinkNo::Memory) => self.shortages = self.shortages.saturating_add(1),
        }
        printed
    }
}
