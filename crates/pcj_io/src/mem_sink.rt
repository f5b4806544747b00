ghost use Rattle.std.specs.Prelude.{◌≡◌, ◌≤◌, ◌<◌, [], min, length, true, is_err, Some, IsTrue, IfOk, IsErrOf};
ghost use Rattle.pcj_io.specs.declared.sink.SinkError.TheVariants.{Failed, Memory};
ghost use Rattle.pcj_io.specs.Sink.{WritesAtMost, WriteAppends, HasSinkCause, write_has_failed};
ghost use Rattle.pcj_io.specs.Calls.{IsNextCall, no_calls};

use crate::failing_calls::FailingCalls;
use crate::{Sink, SinkError};
use std::alloc::Global;
use std::marker::Model;

/// A sink that keeps what it takes, at most `piece` bytes per write, and fails on chosen writes.
#[derive(Drop)]
pub struct MemSink {
    taken: Vec<u8>,
    piece: usize,
    calls: FailingCalls,
}

impl Model for MemSink {
    ghost use Rattle.std.specs.Prelude.{◌<◌};
    ghost use Rattle.pcj_io.specs.Calls.{Store};

    ghost Value = { Store };

    ghost view = { λ s. record { taken = s.taken.items; piece = s.piece; calls = s.calls } };

    ghost invariant = { λ s. 0 < s.piece };
}

impl MemSink {
    /// A sink that has taken nothing. The writes whose numbers, from 1, are in `failing` answer `Failed`. The
    /// numbers stop at 2^64 - 1.
    pub fn new(alloc: Global, piece: usize, failing: Vec<u64>) -> MemSink
        requires { 1 ≤ piece }
        ensures { result ≡ record { taken = []; piece = piece; calls = no_calls failing.items } }
    {
        MemSink {
            taken: Vec::new(alloc),
            piece,
            calls: FailingCalls::new(failing),
        }
    }

    /// All the bytes, in the order of the writes.
    pub fn taken(&self) -> &[u8]
        ensures { result.now ≡ self.now.taken }
    {
        &self.taken
    }
}

impl Sink for MemSink {
    ghost taken = { λ s. Some s.taken };

    ghost faults = { λ s. s.calls.faults };

    ghost takes_memory = { true };

    fn write(&mut self, bytes: &[u8]) -> Result<usize, SinkError>
        requires { 0 < length bytes.now }
        ensures some { IfOk result (λ n. 0 < n) }
        ensures bound { WritesAtMost result bytes.now }
        ensures bytes { WriteAppends (Some self.old.taken) (Some self.new.taken) result bytes.now }
        ensures cause { HasSinkCause self.old.calls.faults self.new.calls.faults result }
        ensures memory { IsErrOf result SinkError.Memory → IsTrue true }
        ensures count { IfOk result (λ n. n ≡ min self.old.piece (length bytes.now)) }
        ensures calls { IsNextCall self.old.calls self.new.calls (write_has_failed result) }
        ensures piece { self.new.piece ≡ self.old.piece }
    {
        if self.calls.next_fails() {
            return Err(SinkError::Failed);
        }
        let count = self.piece.min(bytes.len());
        self.taken.extend_from_slice(&bytes[..count])?;
        Ok(count)
    }

    fn faults(&self) -> u64 {
        self.calls.faults()
    }
}
