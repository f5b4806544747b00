//! A script of two clients over a table, a call of which fails: the fault is told, the load or the answer is as before it, and
//! all goes on to the same end.

ghost use Rattle.pcj_samples.specs.Fresh.{IsFresh};

use crate::scripts::replays;
use pcj_table::RowTable;
use pcj_term::{Bytes, Memory};
use std::alloc::Global;
use std::process::Abort;

/// Two clients load a triple each, and one of them registers a query. Each makes its steps, and again those that are left.
const SCRIPT: &[u8] = b"load c1
<http://e.org/a> <http://e.org/p> <http://e.org/b> .
end
load c2
<http://e.org/c> <http://e.org/p> \"5\" .
end
step c1 100
step c2 100
step c1 100
step c2 100
register c1 q
SELECT DISTINCT ?x ?y WHERE { ?x <http://e.org/p> ?y }
end
step c1 100
step c1 100
answers q
status
";

/// What the two loads tell where the table's call of this number fails. The calls are numbered from the first one after those
/// of the entry. The draw of the first number makes two.
fn loads_told(call: u64) -> &'static [u8] {
    match call {
        1..=2 => b"c1 fault\nc2 load 1 1 triples\n",
        _ => b"c1 load 1 1 triples\nc2 load 2 1 triples\n",
    }
}

/// What the four commands of steps tell. A load of a triple takes eleven steps, of which the sixth, the draw of its commit, and
/// the last one make no call.
fn steps_told(call: u64) -> &'static [u8] {
    match call {
        1..=2 => {
            b"c1 nothing\nc1 steps 0\nc2 committed 2\nc2 done\nc2 steps 11\nc1 nothing\nc1 steps 0\nc2 nothing\nc2 steps 0\n"
        }
        3 => {
            b"c1 fault\nc1 steps 1\nc2 committed 3\nc2 done\nc2 steps 11\nc1 committed 4\nc1 done\nc1 steps 11\nc2 nothing\nc2 steps 0\n"
        }
        4 => {
            b"c1 fault\nc1 steps 2\nc2 committed 3\nc2 done\nc2 steps 11\nc1 committed 4\nc1 done\nc1 steps 10\nc2 nothing\nc2 steps 0\n"
        }
        5 => {
            b"c1 fault\nc1 steps 3\nc2 committed 3\nc2 done\nc2 steps 11\nc1 committed 4\nc1 done\nc1 steps 9\nc2 nothing\nc2 steps 0\n"
        }
        6 => {
            b"c1 fault\nc1 steps 4\nc2 committed 3\nc2 done\nc2 steps 11\nc1 committed 4\nc1 done\nc1 steps 8\nc2 nothing\nc2 steps 0\n"
        }
        7 => {
            b"c1 fault\nc1 steps 5\nc2 committed 3\nc2 done\nc2 steps 11\nc1 committed 4\nc1 done\nc1 steps 7\nc2 nothing\nc2 steps 0\n"
        }
        8 => {
            b"c1 fault\nc1 steps 7\nc2 committed 4\nc2 done\nc2 steps 11\nc1 committed 3\nc1 done\nc1 steps 5\nc2 nothing\nc2 steps 0\n"
        }
        9 => {
            b"c1 committed 3\nc1 fault\nc1 steps 8\nc2 committed 4\nc2 done\nc2 steps 11\nc1 done\nc1 steps 4\nc2 nothing\nc2 steps 0\n"
        }
        10 => {
            b"c1 committed 3\nc1 fault\nc1 steps 9\nc2 committed 4\nc2 done\nc2 steps 11\nc1 done\nc1 steps 3\nc2 nothing\nc2 steps 0\n"
        }
        11 => {
            b"c1 committed 3\nc1 fault\nc1 steps 10\nc2 committed 4\nc2 done\nc2 steps 11\nc1 done\nc1 steps 2\nc2 nothing\nc2 steps 0\n"
        }
        12 => {
            b"c1 committed 3\nc1 done\nc1 steps 11\nc2 fault\nc2 steps 1\nc1 nothing\nc1 steps 0\nc2 committed 4\nc2 done\nc2 steps 11\n"
        }
        13 => {
            b"c1 committed 3\nc1 done\nc1 steps 11\nc2 fault\nc2 steps 2\nc1 nothing\nc1 steps 0\nc2 committed 4\nc2 done\nc2 steps 10\n"
        }
        14 => {
            b"c1 committed 3\nc1 done\nc1 steps 11\nc2 fault\nc2 steps 3\nc1 nothing\nc1 steps 0\nc2 committed 4\nc2 done\nc2 steps 9\n"
        }
        15 => {
            b"c1 committed 3\nc1 done\nc1 steps 11\nc2 fault\nc2 steps 4\nc1 nothing\nc1 steps 0\nc2 committed 4\nc2 done\nc2 steps 8\n"
        }
        16 => {
            b"c1 committed 3\nc1 done\nc1 steps 11\nc2 fault\nc2 steps 5\nc1 nothing\nc1 steps 0\nc2 committed 4\nc2 done\nc2 steps 7\n"
        }
        17 => {
            b"c1 committed 3\nc1 done\nc1 steps 11\nc2 fault\nc2 steps 7\nc1 nothing\nc1 steps 0\nc2 committed 4\nc2 done\nc2 steps 5\n"
        }
        18 => {
            b"c1 committed 3\nc1 done\nc1 steps 11\nc2 committed 4\nc2 fault\nc2 steps 8\nc1 nothing\nc1 steps 0\nc2 done\nc2 steps 4\n"
        }
        19 => {
            b"c1 committed 3\nc1 done\nc1 steps 11\nc2 committed 4\nc2 fault\nc2 steps 9\nc1 nothing\nc1 steps 0\nc2 done\nc2 steps 3\n"
        }
        20 => {
            b"c1 committed 3\nc1 done\nc1 steps 11\nc2 committed 4\nc2 fault\nc2 steps 10\nc1 nothing\nc1 steps 0\nc2 done\nc2 steps 2\n"
        }
        _ => {
            b"c1 committed 3\nc1 done\nc1 steps 11\nc2 committed 4\nc2 done\nc2 steps 11\nc1 nothing\nc1 steps 0\nc2 nothing\nc2 steps 0\n"
        }
    }
}

/// What the two commands of steps of the registration tell, which take eleven steps as those of a load. Where a load faulted at
/// the draw of its number, there is one load alone, and the numbers are two lower.
fn registered_told(call: u64) -> &'static [u8] {
    match call {
        1..=2 => {
            b"c1 register 3 q\nc1 committed 4\nc1 done\nc1 steps 11\nc1 nothing\nc1 steps 0\n"
        }
        21 => { b"c1 register 5 q\nc1 fault\nc1 steps 1\nc1 committed 6\nc1 done\nc1 steps 11\n" }
        22 => { b"c1 register 5 q\nc1 fault\nc1 steps 2\nc1 committed 6\nc1 done\nc1 steps 10\n" }
        23 => b"c1 register 5 q\nc1 fault\nc1 steps 3\nc1 committed 6\nc1 done\nc1 steps 9\n",
        24 => b"c1 register 5 q\nc1 fault\nc1 steps 4\nc1 committed 6\nc1 done\nc1 steps 8\n",
        25 => b"c1 register 5 q\nc1 fault\nc1 steps 5\nc1 committed 6\nc1 done\nc1 steps 7\n",
        26 => b"c1 register 5 q\nc1 fault\nc1 steps 7\nc1 committed 6\nc1 done\nc1 steps 5\n",
        27 => b"c1 register 5 q\nc1 committed 6\nc1 fault\nc1 steps 8\nc1 done\nc1 steps 4\n",
        28 => b"c1 register 5 q\nc1 committed 6\nc1 fault\nc1 steps 9\nc1 done\nc1 steps 3\n",
        29 => b"c1 register 5 q\nc1 committed 6\nc1 fault\nc1 steps 10\nc1 done\nc1 steps 2\n",
        _ => { b"c1 register 5 q\nc1 committed 6\nc1 done\nc1 steps 11\nc1 nothing\nc1 steps 0\n" }
    }
}

/// What the last commands tell. An answer of two rows takes three calls, a count of three notifications and no lock five.
fn rest_told(call: u64) -> &'static [u8] {
    match call {
        1..=2 => b"<http://e.org/c>\t\"5\"\nrows 1\nnotifications 2 locks 0\n",
        30..=32 => b"answers fault\nnotifications 3 locks 0\n",
        33..=37 => {
            b"<http://e.org/a>\t<http://e.org/b>\n<http://e.org/c>\t\"5\"\nrows 2\nstatus fault\n"
        }
        _ => {
            b"<http://e.org/a>\t<http://e.org/b>\n<http://e.org/c>\t\"5\"\nrows 2\nnotifications 3 locks 0\n"
        }
    }
}

fn joined(alloc: Global, parts: [&[u8]; 4]) -> Result<Bytes, Memory> {
    let mut text = Bytes::new(alloc);
    text.extend_from_pieces(&parts)?;
    Ok(text)
}

/// The script over a table whose call of this number fails.
pub(crate) fn are_told<T: RowTable>(rt: &impl Abort, alloc: Global, table: &mut T, call: u64)
    requires { IsFresh (T.rows table.old) }
{
    let parts = [
        loads_told(call),
        steps_told(call),
        registered_told(call),
        rest_told(call),
    ];
    let Ok(written) = joined(alloc, parts) else {
        panic!(rt; "no memory");
    };
    replays(rt, alloc, table, SCRIPT, 0, written.as_slice());
}

/// A fault at the entry ends the run before anything is written.
pub(crate) fn end_at_the_entry<T: RowTable>(rt: &impl Abort, alloc: Global, table: &mut T)
    requires { IsFresh (T.rows table.old) }
{
    replays(rt, alloc, table, SCRIPT, 7, b"");
}
