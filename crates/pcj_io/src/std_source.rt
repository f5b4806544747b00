ghost use Rattle.std.specs.Prelude.{◌≡◌, ◌<◌, length, is_err, IfOk};
ghost use Rattle.pcj_io.specs.Source.{ReadsAtMost, ReadConsumes, EndsWhereNothingIsLeft};
ghost use Rattle.pcj_io.specs.Faults.{HasCause, CountsFaults};

use crate::{Failed, Source};
use std::io::Read;

/// One of std's readers as a source. It tells its bytes where the reader's are known, and counts each of
/// the reader's errors as a fault. It takes no memory.
#[derive(Drop)]
pub struct StdSource<R: Read> {
    reader: R,
    faults: u64,
}

impl<R: Read> StdSource<R> {
    /// A source that reads from this reader, and has had no fault.
    pub fn new(reader: R) -> StdSource<R>
        ensures left { ⟦<StdSource<R> as Source>⟧.left result ≡ R.remaining reader }
        ensures faults { ⟦<StdSource<R> as Source>⟧.faults result ≡ 0 }
    {
        StdSource { reader, faults: 0 }
    }
}

impl<R: Read> Source for StdSource<R> {
    ghost left = { λ s. R.remaining s.reader };

    ghost faults = { λ s. s.faults };

    fn read(&mut self, buf: &mut [u8]) -> Result<usize, Failed>
        requires { 0 < length buf.old }
        ensures bound { ReadsAtMost result buf.new }
        ensures bytes { ReadConsumes (⟦<StdSource<R> as Source>⟧.left self.old) (⟦<StdSource<R> as Source>⟧.left self.new) result buf.new }
        ensures end { IfOk result (EndsWhereNothingIsLeft (⟦<StdSource<R> as Source>⟧.left self.old)) }
        ensures cause { HasCause (⟦<StdSource<R> as Source>⟧.faults self.old) (⟦<StdSource<R> as Source>⟧.faults self.new) result }
        ensures counts { CountsFaults (⟦<StdSource<R> as Source>⟧.faults self.old) (⟦<StdSource<R> as Source>⟧.faults self.new) (is_err result) }
    {
        match self.reader.read(buf) {
            Ok(count) => Ok(count),
            Err(_) => {
                self.faults = self.faults.saturating_add(1);
                Err(Failed)
            }
        }
    }

    fn faults(&self) -> u64 {
        self.faults
    }
}
