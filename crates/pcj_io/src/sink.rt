ghost use Rattle.std.specs.Prelude.{◌≡◌, ℕ, ◌<◌, Bool, List, Option, length, IsTrue, IfOk, IsOk, OnOk, OnErr, IsErrOf};
ghost use Rattle.pcj_io.specs.declared.sink.SinkError.TheVariants.{Failed, Memory};
ghost use Rattle.pcj_io.specs.Sink.{WritesAtMost, WriteAppends, Appends, AppendsPrefix, HasSinkCause};

use std::alloc::AllocError;

/// Why a sink took nothing.
#[derive(Clone, Copy, Debug, PartialEq, Eq)]
pub enum SinkError {
    /// What is behind the sink failed.
    Failed,
    /// The sink found no memory for the bytes.
    Memory,
}

impl From<AllocError> for SinkError {
    ghost from_gives = { λ _ e. e ≡ Memory };

    fn from(_: AllocError) -> Self {
        SinkError::Memory
    }
}

/// What takes bytes in order.
pub trait Sink {
    /// The bytes that the sink has taken, where it tells them.
    ghost taken: { Self → Option (List ℕ) };

    /// How often the sink has failed.
    ghost faults: { Self → ℕ };

    /// Whether a write may want memory, and so answer `Memory`.
    ghost takes_memory: { Bool };

    /// Takes some bytes of the front of the piece, at least one, and returns how many.
    fn write(&mut self, bytes: &[u8]) -> Result<usize, SinkError>
        requires { 0 < length bytes.now }
        ensures some { IfOk result (λ n. 0 < n) }
        ensures bound { WritesAtMost result bytes.now }
        ensures bytes { WriteAppends (taken self.old) (taken self.new) result bytes.now }
        ensures cause { HasSinkCause (faults self.old) (faults self.new) result }
        ensures memory { IsErrOf result SinkError.Memory → IsTrue takes_memory };

    /// How many faults the sink has had. The count stops at 2^64 - 1.
    fn faults(&self) -> u64
        ensures { result ≡ faults self.now };
}

/// Writes all the bytes, in as many pieces as the sink makes of them. An error is that of the first write
/// that had one; the sink has then taken what was written before.
pub fn write_all<K: Sink>(sink: &mut K, bytes: &[u8]) -> Result<(), SinkError>
    ensures ok { OnOk result (Appends (K.taken sink.old) (K.taken sink.new) bytes.now) }
    ensures err { OnErr result (AppendsPrefix (K.taken sink.old) (K.taken sink.new) bytes.now) }
    ensures nothing { length bytes.now ≡ 0 → IsOk result }
    ensures cause { HasSinkCause (K.faults sink.old) (K.faults sink.new) result }
    ensures memory { IsErrOf result SinkError.Memory → IsTrue K.takes_memory }
{
    let mut at = 0;
    while at < bytes.len() {
        let (_, rest) = bytes.split_at(at);
        at += sink.write(rest)?;
    }
    Ok(())
}
