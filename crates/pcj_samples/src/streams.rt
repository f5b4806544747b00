//! Sources and sinks in memory that fail on chosen calls, and what they give and take.

ghost use Rattle.std.specs.Prelude.{◌≤◌};

use pcj_io::{Failed, MemSink, MemSource, SinkError, Source, write_all};
use std::alloc::{AllocError, Global};
use std::process::Abort;

/// A source of a text, whose reads of these numbers fail.
pub(crate) fn source_of(
    alloc: Global,
    text: &[u8],
    piece: usize,
    failing: &[u64],
) -> Result<MemSource, AllocError>
    requires { 1 ≤ piece }
{
    let calls = Vec::from_slice(alloc, failing)?;
    Ok(MemSource::new(Vec::from_slice(alloc, text)?, piece, calls))
}

/// A sink whose writes of these numbers fail.
pub(crate) fn sink_of(alloc: Global, piece: usize, failing: &[u64]) -> Result<MemSink, AllocError>
    requires { 1 ≤ piece }
{
    Ok(MemSink::new(alloc, piece, Vec::from_slice(alloc, failing)?))
}

/// What is left of a text after one read of at most four bytes, or nothing where the read failed or gave other bytes.
fn read_front<'a, S: Source>(source: &mut S, text: &'a [u8]) -> Option<&'a [u8]> {
    let mut buf = [0; 4];
    match source.read(&mut buf) {
        Ok(count) => text.strip_prefix(&buf[..count]),
        Err(Failed) => None,
    }
}

/// Twelve reads give the text, and the one of this number fails, or none where it is 0.
pub(crate) fn gives<S: Source>(rt: &impl Abort, source: &mut S, text: &[u8], fails: u64) {
    let mut rest = text;
    for number in 1..13 {
        let left = read_front(source, rest);
        assert!(rt; left.is_none() == (number == fails));
        rest = left.unwrap_or(rest);
    }
    assert!(rt; rest.is_empty());
    assert!(rt; source.faults() == if fails == 0 { 0 } else { 1 });
}

/// A source of so many bytes a read gives a text, where one read fails.
fn memory_gives(rt: &impl Abort, alloc: Global, piece: usize, fails: u64)
    requires { 1 ≤ piece }
{
    let Ok(mut source) = source_of(alloc, b"sources", piece, &[fails]) else {
        panic!(rt; "no memory");
    };
    gives(rt, &mut source, b"sources", fails);
}

#[test]
fn sources_give_their_bytes(rt: HostRuntime) {
    memory_gives(&rt, rt.alloc(), 1, 1);
    memory_gives(&rt, rt.alloc(), 1, 3);
    memory_gives(&rt, rt.alloc(), 3, 2);
    memory_gives(&rt, rt.alloc(), 3, 12);
    memory_gives(&rt, rt.alloc(), 9, 5);
}

/// A sink of so many bytes a write, of which one fails, takes this front of `eight by`. It takes nothing of no bytes.
fn memory_takes(
    rt: &impl Abort,
    alloc: Global,
    piece: usize,
    fails: u64,
    want: Result<(), SinkError>,
    front: &[u8],
)
    requires { 1 ≤ piece }
{
    let Ok(mut sink) = sink_of(alloc, piece, &[fails]) else {
        panic!(rt; "no memory");
    };
    assert!(rt; write_all(&mut sink, b"eight by") == want);
    assert!(rt; sink.taken() == front);
    assert!(rt; write_all(&mut sink, b"") == Ok(()));
}

#[test]
fn sinks_take_a_front(rt: HostRuntime) {
    let failed = Err(SinkError::Failed);
    memory_takes(&rt, rt.alloc(), 3, 0, Ok(()), b"eight by");
    memory_takes(&rt, rt.alloc(), 3, 3, failed, b"eight ");
    memory_takes(&rt, rt.alloc(), 3, 4, Ok(()), b"eight by");
    memory_takes(&rt, rt.alloc(), 1, 1, failed, b"");
    memory_takes(&rt, rt.alloc(), 9, 2, Ok(()), b"eight by");
}
