//! Whole scripts over streams and tables that fail, over a clock that is at its end, and over a table that another run left.

ghost use Rattle.std.specs.Prelude.{◌≤◌};
ghost use Rattle.pcj_replay.specs.Entry.{IsOpen};
ghost use Rattle.pcj_samples.specs.Fresh.{IsFresh};

use crate::streams::{sink_of, source_of};
use pcj_io::{StdSink, StdSource};
use pcj_replay::replay;
use pcj_table::RowTable;
use std::alloc::{AllocError, Global};
use std::io::Cursor;
use std::process::Abort;

/// A script that loads two triples and asks for them.
pub(crate) const SCRIPT: &[u8] = b"load c1
<http://e.org/a> <http://e.org/p> <http://e.org/b> .
<http://e.org/c> <http://e.org/p> \"5\" .
end
step c1 1000000
register c1 q
SELECT DISTINCT ?x ?y WHERE { ?x <http://e.org/p> ?y }
end
step c1 1000000
answers q
";

/// What is written for it. A load of two triples takes 20 steps: a look at each, a prewrite of each of eight rows, the draw, a
/// commit of each row, and the one that tells the end. A registration of one pattern takes eleven: a look at its name, and as much
/// for each of four rows.
pub(crate) const TRANSCRIPT: &[u8] = b"c1 load 1 2 triples
c1 committed 2
c1 done
c1 steps 20
c1 register 3 q
c1 committed 4
c1 done
c1 steps 11
<http://e.org/a>\t<http://e.org/b>
<http://e.org/c>\t\"5\"
rows 2
";

/// Where each command of the script ends, and where its lines end in the transcript.
const ENDS: [(usize, usize); 5] = [(105, 20), (121, 55), (194, 71), (210, 106), (220, 168)];

/// How many bytes move in a call of the source or the sink, and which call of each fails, or 0 for none.
#[derive(Clone, Copy)]
pub(crate) struct Streams {
    pub(crate) piece: usize,
    pub(crate) read: u64,
    pub(crate) write: u64,
    ghost some: { 1 ≤ piece },
}

/// Streams that don't fail, and take all that is here in one call.
pub(crate) const WHOLE: Streams = Streams {
    piece: 1_000_000,
    read: 0,
    write: 0,
};

fn words_of(alloc: Global, words: &[&str]) -> Result<Vec<String>, AllocError> {
    let mut owned = Vec::new(alloc);
    for word in words {
        owned.push(String::from_str(alloc, word)?)?;
    }
    Ok(owned)
}

/// The words over a script end with this status, and this is written.
pub(crate) fn ends<T: RowTable>(
    rt: &impl Abort,
    alloc: Global,
    table: &mut T,
    words: &[&str],
    script: &[u8],
    streams: Streams,
    status: u8,
    written: &[u8],
)
    requires { IsFresh (T.rows table.old) }
{
    let Ok(mut sink) = sink_of(alloc, streams.piece, &[streams.write]) else {
        panic!(rt; "no memory");
    };
    let Ok(mut source) = source_of(alloc, script, streams.piece, &[streams.read]) else {
        panic!(rt; "no memory");
    };
    let Ok(words) = words_of(alloc, words) else {
        panic!(rt; "no memory");
    };
    assert!(rt; replay(alloc, &words, &mut source, &mut sink, table) == status);
    assert!(rt; sink.taken() == written);
}

/// A script over streams that don't fail ends with this status, and this is written.
pub(crate) fn replays<T: RowTable>(
    rt: &impl Abort,
    alloc: Global,
    table: &mut T,
    script: &[u8],
    status: u8,
    written: &[u8],
)
    requires { IsFresh (T.rows table.old) }
{
    let words = &["replay"];
    ends(rt, alloc, table, words, script, WHOLE, status, written);
}

/// The script over these streams ends with this status, and this is written.
fn goes_over<T: RowTable>(
    rt: &impl Abort,
    alloc: Global,
    table: &mut T,
    streams: Streams,
    status: u8,
    written: &[u8],
)
    requires { IsFresh (T.rows table.old) }
{
    let words = &["replay"];
    ends(rt, alloc, table, words, SCRIPT, streams, status, written);
}

/// Words other than `replay` write the usage line, also where a read would fail, and a front of it where a write does.
pub(crate) fn other_words_show_the_usage<T: RowTable>(
    rt: &impl Abort,
    alloc: Global,
    table: &mut T,
    words: &[&str],
    fails: bool,
)
    requires { IsFresh (T.rows table.old) }
{
    let usage = b"usage: pcj replay | pcj big SEED N | pcj generate SEED N\n";
    if fails {
        let streams = Streams {
            piece: 5,
            read: 0,
            write: 2,
        };
        ends(rt, alloc, table, words, SCRIPT, streams, 4, b"usage");
    } else {
        let streams = Streams {
            piece: 5,
            read: 1,
            write: 0,
        };
        ends(rt, alloc, table, words, SCRIPT, streams, 2, usage);
    }
}

/// How many bytes are written for the commands that stand whole in so many bytes of the script.
fn told_after(read: usize) -> usize {
    let mut told = 0;
    for (end, written) in ENDS {
        if end <= read {
            told = written;
        }
    }
    told
}

/// A byte a read: where one fails, up to the one that tells the end, the commands that stand whole before it are carried out.
pub(crate) fn fail_at_a_read<T: RowTable>(
    rt: &impl Abort,
    alloc: Global,
    table: &mut T,
    read: usize,
)
    requires { IsFresh (T.rows table.old) }
{
    let streams = Streams {
        piece: 1,
        read: (read as u64).saturating_add(1),
        write: 0,
    };
    if read <= SCRIPT.len() {
        let (front, _) = TRANSCRIPT.split_at(told_after(read).min(TRANSCRIPT.len()));
        goes_over(rt, alloc, table, streams, 3, front);
    } else {
        goes_over(rt, alloc, table, streams, 0, TRANSCRIPT);
    }
}

/// A byte a write: where one fails, what was written before it stays.
pub(crate) fn fail_at_a_write<T: RowTable>(
    rt: &impl Abort,
    alloc: Global,
    table: &mut T,
    before: usize,
)
    requires { IsFresh (T.rows table.old) }
{
    let streams = Streams {
        piece: 1,
        read: 0,
        write: (before as u64).saturating_add(1),
    };
    if before < TRANSCRIPT.len() {
        let (front, _) = TRANSCRIPT.split_at(before);
        goes_over(rt, alloc, table, streams, 4, front);
    } else {
        goes_over(rt, alloc, table, streams, 0, TRANSCRIPT);
    }
}

/// A script ends with status 0, and this is written. Another run may follow.
fn goes_on<T: RowTable>(
    rt: &impl Abort,
    alloc: Global,
    table: &mut T,
    script: &[u8],
    written: &[u8],
)
    requires { IsOpen (T.rows table.old) }
    ensures { IsOpen (T.rows table.new) }
{
    let Ok(mut sink) = sink_of(alloc, WHOLE.piece, &[]) else {
        panic!(rt; "no memory");
    };
    let Ok(mut source) = source_of(alloc, script, WHOLE.piece, &[]) else {
        panic!(rt; "no memory");
    };
    let Ok(words) = words_of(alloc, &["replay"]) else {
        panic!(rt; "no memory");
    };
    assert!(rt; replay(alloc, &words, &mut source, &mut sink, table) == 0);
    assert!(rt; sink.taken() == written);
}

/// A run in which a load and a registration are committed and no further, and another registration isn't; and a second run over
/// the table that it left, which has the triples and the first of the two queries.
pub(crate) fn go_on_after_a_run<T: RowTable>(rt: &impl Abort, alloc: Global, table: &mut T)
    requires { IsFresh (T.rows table.old) }
{
    let first = b"load c1
<http://e.org/a> <http://e.org/p> <http://e.org/b> .
<http://e.org/c> <http://e.org/p> \"5\" .
end
step c1 12
register c2 kept
SELECT DISTINCT ?x ?y WHERE { ?x <http://e.org/p> ?y }
end
step c2 7
register c3 lost
SELECT DISTINCT ?x ?y WHERE { ?x <http://e.org/p> ?y }
end
step c3 6
";
    let written = b"c1 load 1 2 triples
c1 committed 2
c1 steps 12
c2 register 3 kept
c2 committed 4
c2 steps 7
c3 register 5 lost
c3 steps 6
";
    goes_on(rt, alloc, table, first, written);
    let second = b"status
answers kept
answers lost
register c1 kept
SELECT DISTINCT ?x WHERE { ?x ?y ?x }
end
step c1 100
register c1 lost
SELECT DISTINCT ?x WHERE { ?x <http://e.org/p> ?y }
end
step c1 100
answers lost
status
";
    let written = b"notifications 4 locks 14
<http://e.org/a>\t<http://e.org/b>
<http://e.org/c>\t\"5\"
rows 2
no query lost
c1 register 1002 kept
c1 taken
c1 steps 1
c1 register 1003 lost
c1 committed 1004
c1 done
c1 steps 13
<http://e.org/a>
<http://e.org/c>
rows 2
notifications 5 locks 11
";
    goes_on(rt, alloc, table, second, written);
}

/// The script from one of std's readers, and its transcript to one of std's writers.
pub(crate) fn go_through_std<T: RowTable>(rt: &impl Abort, alloc: Global, table: &mut T)
    requires { IsFresh (T.rows table.old) }
{
    let Ok(words) = words_of(alloc, &["replay"]) else {
        panic!(rt; "no memory");
    };
    let mut written = Vec::new(alloc);
    let mut source = StdSource::new(Cursor::new(SCRIPT));
    let mut sink = StdSink::new(&mut written);
    assert!(rt; replay(alloc, &words, &mut source, &mut sink, table) == 0);
    assert!(rt; written.as_slice() == TRANSCRIPT);
}
