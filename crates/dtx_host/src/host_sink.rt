// Standard output as a sink, through the runtime that `main` is given. What it has printed is not told: proofs don't
// see it.
ghost use Rattle.std.specs.Prelude.{◌≡◌, ◌<◌, ◌≤◌, None, Ok, IfOk, length};
ghost use Rattle.dtx_outside.specs.Sink.{counts_printed, no_sink_counts, IsCounted, IsPrinted};

use crate::progress::Progress;
use dtx_outside::{Sink, SinkNo, SinkRefusals};
use std::io::ErrorKind;
use std::marker::Model;

/// Standard output. It wipes the line of progress before it prints.
#[derive(Drop)]
pub struct HostSink<'a, R: Print + Eprint> {
    rt: &'a R,
    progress: &'a Progress,
    refusals: SinkRefusals,
}

impl<'a, R: Print + Eprint> Model for HostSink<'a, R> {
    ghost use Rattle.dtx_outside.specs.Sink.{SinkCounts};

    ghost Value = { SinkCounts };

    ghost view = { λ s. s.refusals };
}

impl<'a, R: Print + Eprint> HostSink<'a, R> {
    /// Standard output, with nothing counted yet.
    pub fn new(rt: &'a R, progress: &'a Progress) -> HostSink<'a, R>
        ensures { result ≡ no_sink_counts }
    {
        HostSink {
            rt,
            progress,
            refusals: SinkRefusals::new(),
        }
    }
}

impl<R: Print + Eprint> Sink for HostSink<'_, R> {
    ghost written = { λ _. None };

    ghost counts = { λ s. s };

    fn write(&mut self, bytes: &[u8]) -> Result<usize, SinkNo>

        // The trait's clauses on what was taken, and on the counts.
        ensures bound { IfOk result (λ n. n ≤ length bytes.now) }
        ensures some { IfOk result (λ n. 0 < length bytes.now → 0 < n) }
        ensures empty { length bytes.now ≡ 0 → result ≡ Ok 0 }
        ensures bytes { IsPrinted bytes.now None result None }
        ensures gone { IsCounted self.old result self.new }

        // It counts what it answers, and nothing else.
        ensures counted { self.new ≡ counts_printed result self.old }
    {
        if bytes.is_empty() {
            return Ok(0);
        }
        self.progress.wipe(self.rt);
        match self.rt.write_some(bytes) {
            Ok(n) if n > 0 => Ok(n),
            Err(e) if e.kind() == ErrorKind::OutOfMemory => self.refusals.note(Err(SinkNo::Memory)),
            Ok(_) | Err(_) => self.refusals.note(Err(SinkNo::Failed)),
        }
    }
}
