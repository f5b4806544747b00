ghost use Rattle.std.specs.Prelude.{◌≡◌, ◌<◌, ◌≤◌, min, length, is_err, Some, IfOk};
ghost use Rattle.pcj_io.specs.Source.{ReadsAtMost, ReadConsumes, EndsWhereNothingIsLeft};
ghost use Rattle.pcj_io.specs.Faults.{HasCause};
ghost use Rattle.pcj_io.specs.Calls.{IsNextCall, no_calls};

use crate::failing_calls::FailingCalls;
use crate::{Failed, Source};
use std::marker::Model;

/// Bytes in memory, as a source that gives at most `piece` of them per read and fails on chosen reads.
#[derive(Drop)]
pub struct MemSource {
    bytes: Vec<u8>,
    at: usize,
    piece: usize,
    calls: FailingCalls,
}

impl Model for MemSource {
    ghost use Rattle.std.specs.Prelude.{◌<◌, ◌≤◌, drop, vec_len};
    ghost use Rattle.pcj_io.specs.Calls.{Supply};

    ghost Value = { Supply };

    ghost view = { λ s. record { left = drop s.at s.bytes.items; piece = s.piece; calls = s.calls } };

    ghost invariant = { λ s. (s.at ≤ vec_len s.bytes) × (0 < s.piece) };
}

impl MemSource {
    /// A source of these bytes. The reads whose numbers, from 1, are in `failing` answer `Failed`. The numbers
    /// stop at 2^64 - 1.
    pub fn new(bytes: Vec<u8>, piece: usize, failing: Vec<u64>) -> MemSource
        requires { 1 ≤ piece }
        ensures { result ≡ record { left = bytes.items; piece = piece; calls = no_calls failing.items } }
    {
        MemSource {
            bytes,
            at: 0,
            piece,
            calls: FailingCalls::new(failing),
        }
    }
}

impl Source for MemSource {
    ghost left = { λ s. Some s.left };

    ghost faults = { λ s. s.calls.faults };

    fn read(&mut self, buf: &mut [u8]) -> Result<usize, Failed>
        requires { 0 < length buf.old }
        ensures bound { ReadsAtMost result buf.new }
        ensures bytes { ReadConsumes (Some self.old.left) (Some self.new.left) result buf.new }
        ensures end { IfOk result (EndsWhereNothingIsLeft (Some self.old.left)) }
        ensures cause { HasCause self.old.calls.faults self.new.calls.faults result }
        ensures count { IfOk result (λ n. n ≡ min self.old.piece (min (length buf.old) (length self.old.left))) }
        ensures calls { IsNextCall self.old.calls self.new.calls (is_err result) }
        ensures piece { self.new.piece ≡ self.old.piece }
    {
        if self.calls.next_fails() {
            return Err(Failed);
        }
        let (_, left) = self.bytes.split_at(self.at);
        let count = self.piece.min(buf.len().min(left.len()));
        buf[..count].copy_from_slice(&left[..count]);
        self.at += count;
        Ok(count)
    }

    fn faults(&self) -> u64 {
        self.calls.faults()
    }
}
