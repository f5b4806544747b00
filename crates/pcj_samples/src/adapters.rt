//! The adapters over std's readers and writers.

use crate::streams::gives;
use pcj_io::{Sink, SinkError, StdSink, StdSource, write_all};
use std::io;
use std::io::{ErrorKind, Read, Write};

/// A reader that gives one byte a read, and whose second read fails.
#[derive(Drop)]
struct Flaky {
    reads: u8,
}

impl Read for Flaky {
    fn read(&mut self, buf: &mut [u8]) -> io::Result<usize> {
        self.reads = self.reads.saturating_add(1);
        if self.reads == 2 {
            return Err(io::Error::from(ErrorKind::Interrupted));
        }
        if buf.is_empty() {
            return Ok(0);
        }
        buf[0] = self.reads;
        Ok(1)
    }
}

/// A writer that takes nothing.
#[derive(Drop)]
struct Stuck;

impl Write for Stuck {
    fn write(&mut self, _: &[u8]) -> io::Result<usize> {
        Ok(0)
    }

    fn flush(&mut self) -> io::Result<()> {
        Ok(())
    }
}

#[test]
fn a_reader_gives_its_bytes(rt: HostRuntime) {
    let text = b"sources";
    gives(&rt, &mut StdSource::new(text.as_slice()), text, 0);
}

#[test]
fn a_failing_reader_goes_on(rt: HostRuntime) {
    let bytes = [1, 3, 4, 5, 6, 7, 8, 9, 10, 11, 12];
    gives(&rt, &mut StdSource::new(Flaky { reads: 0 }), &bytes, 2);
}

#[test]
fn a_writer_takes_what_is_written(rt: HostRuntime) {
    let mut bytes = Vec::new(rt.alloc());
    let mut writer = StdSink::new(&mut bytes);
    assert!(rt; write_all(&mut writer, b"front, ") == Ok(()));
    assert!(rt; write_all(&mut writer, b"rest") == Ok(()));
    assert!(rt; writer.faults() == 0);
    assert!(rt; bytes.as_slice() == b"front, rest".as_slice());
}

#[test]
fn a_writer_that_takes_nothing_has_failed(rt: HostRuntime) {
    let mut sink = StdSink::new(Stuck);
    assert!(rt; write_all(&mut sink, b"bytes") == Err(SinkError::Failed));
    assert!(rt; sink.faults() == 1);
}
