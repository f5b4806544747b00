ghost use Rattle.std.specs.Prelude.{◌≡◌, ◌<◌, length, is_err, false, IfOk, IsErrOf};
ghost use Rattle.pcj_io.specs.Faults.{CountsFaults};
ghost use Rattle.pcj_io.specs.Sink.{WritesAtMost, WriteAppends, HasSinkCause};

use crate::{Sink, SinkError};
use std::io::Write;

/// One of std's writers as a sink. It tells its bytes where the writer's are known, and counts each of the
/// writer's errors as a fault. It takes no memory, and flushes nothing.
#[derive(Drop)]
pub struct StdSink<W: Write> {
    writer: W,
    faults: u64,
}

impl<W: Write> StdSink<W> {
    /// A sink that writes to this writer, and has had no fault.
    pub fn new(writer: W) -> StdSink<W>
        ensures taken { ⟦<StdSink<W> as Sink>⟧.taken result ≡ W.contents writer }
        ensures faults { ⟦<StdSink<W> as Sink>⟧.faults result ≡ 0 }
    {
        StdSink { writer, faults: 0 }
    }
}

impl<W: Write> Sink for StdSink<W> {
    ghost taken = { λ s. W.contents s.writer };

    ghost faults = { λ s. s.faults };

    ghost takes_memory = { false };

    /// A writer that takes nothing of the piece has failed too.
    fn write(&mut self, bytes: &[u8]) -> Result<usize, SinkError>
        requires { 0 < length bytes.now }
        ensures some { IfOk result (λ n. 0 < n) }
        ensures bound { WritesAtMost result bytes.now }
        ensures bytes { WriteAppends (⟦<StdSink<W> as Sink>⟧.taken self.old) (⟦<StdSink<W> as Sink>⟧.taken self.new) result bytes.now }
        ensures cause { HasSinkCause (⟦<StdSink<W> as Sink>⟧.faults self.old) (⟦<StdSink<W> as Sink>⟧.faults self.new) result }
        ensures memory { IsErrOf result SinkError.Memory → ⊥ }
        ensures counts { CountsFaults (⟦<StdSink<W> as Sink>⟧.faults self.old) (⟦<StdSink<W> as Sink>⟧.faults self.new) (is_err result) }
    {
        match self.writer.write(bytes) {
            Ok(count) if count > 0 => Ok(count),
            _ => {
                self.faults = self.faults.saturating_add(1);
                Err(SinkError::Failed)
            }
        }
    }

    fn faults(&self) -> u64 {
        self.faults
    }
}
