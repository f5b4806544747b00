//! Oracles over one table: what they grant after crashes, after failed calls and at the last number.

ghost use Rattle.pcj_oracle.specs.Clock.{IsClock};
ghost use Rattle.pcj_samples.specs.Fresh.{IsFresh};

use crate::told::counts;
use pcj_oracle::{Oracle, OracleError};
use pcj_table::{Row, RowTable};
use pcj_term::TryClone;
use std::alloc::Global;
use std::process::Abort;

/// The key of the clock's row.
const CLOCK: &[u8] = b"z\0";

/// The last number.
pub(crate) const LAST: u64 = 281_474_976_710_655;

/// What one draw tells.
#[derive(Clone, Copy, PartialEq, Eq)]
pub(crate) enum Drawn {
    Number(u64),
    Error(OracleError),
}

/// An oracle over a fresh table, to which it isn't attached.
fn oracle_over<T: RowTable>(alloc: Global, _table: &T) -> Oracle
    requires { IsFresh (T.rows _table.now) }
    ensures { IsClock result (T.rows _table.now) }
{
    Oracle::new(alloc)
}

/// An oracle beside another one over the same table, to which it isn't attached.
fn oracle_beside<T: RowTable>(alloc: Global, _other: &Oracle, _table: &T) -> Oracle
    requires { IsClock _other.now (T.rows _table.now) }
    ensures { IsClock result (T.rows _table.now) }
{
    Oracle::new(alloc)
}

fn crash<T: RowTable>(oracle: &mut Oracle, _table: &T)
    requires { IsClock oracle.old (T.rows _table.now) }
    ensures { IsClock oracle.new (T.rows _table.now) }
{
    oracle.crash();
}

fn draw<T: RowTable>(oracle: &mut Oracle, table: &mut T) -> Drawn
    requires { IsClock oracle.old (T.rows table.old) }
    ensures { IsClock oracle.new (T.rows table.new) }
{
    match oracle.draw(table) {
        Ok(number) => Drawn::Number(number),
        Err(error) => Drawn::Error(error),
    }
}

/// What the last of some draws tells.
fn last_of<T: RowTable>(oracle: &mut Oracle, table: &mut T, draws: usize) -> Drawn
    requires { IsClock oracle.old (T.rows table.old) }
    ensures { IsClock oracle.new (T.rows table.new) }
{
    let mut last = Drawn::Number(0);
    for _ in 0..draws {
        last = draw(oracle, table);
    }
    last
}

/// After some draws and a crash the first number of the next block is granted.
pub(crate) fn go_on_after_a_crash<T: RowTable>(
    rt: &impl Abort,
    alloc: Global,
    table: &mut T,
    draws: usize,
    last: u64,
    next: u64,
)
    requires { IsFresh (T.rows table.old) }
{
    let mut oracle = oracle_over(alloc, table);
    assert!(rt; last_of(&mut oracle, table, draws) == Drawn::Number(last));
    crash(&mut oracle, table);
    assert!(rt; draw(&mut oracle, table) == Drawn::Number(next));
}

/// Whether the clock's row has this number and an empty value.
fn clock_is<T: RowTable>(table: &mut T, number: u64) -> bool {
    match table.get(CLOCK) {
        Ok(Some(row)) => is_clock_at(&row, number),
        _ => false,
    }
}

fn is_clock_at(row: &Row, number: u64) -> bool {
    row.plain.as_ref().is_some_and(|plain| {
        plain.seq == number && plain.value.as_ref().is_some_and(|value| value.is_empty())
    })
}

/// Where the last number is granted next, it is granted once, also after a crash.
pub(crate) fn grant_the_last_once<T: RowTable>(rt: &impl Abort, alloc: Global, table: &mut T)
    requires { IsFresh (T.rows table.old) }
{
    let mut oracle = oracle_over(alloc, table);
    assert!(rt; draw(&mut oracle, table) == Drawn::Number(LAST));
    assert!(rt; draw(&mut oracle, table) == Drawn::Error(OracleError::Spent));
    crash(&mut oracle, table);
    assert!(rt; draw(&mut oracle, table) == Drawn::Error(OracleError::Spent));
    assert!(rt; clock_is(table, LAST + 1));
    // one of them set the clock
    assert!(rt; counts(table) == (0, 5));
}

/// Two oracles draw and crash in turn.
pub(crate) fn take_turns<T: RowTable>(rt: &impl Abort, alloc: Global, table: &mut T)
    requires { IsFresh (T.rows table.old) }
{
    let mut first = oracle_over(alloc, table);
    assert!(rt; last_of(&mut first, table, 2) == Drawn::Number(2));
    let mut second = oracle_beside(alloc, &first, table);
    assert!(rt; last_of(&mut second, table, 2) == Drawn::Number(1_002));
    let mut first = oracle_beside(alloc, &second, table);
    assert!(rt; last_of(&mut first, table, 1_001) == Drawn::Number(3_001));
    let mut second = oracle_beside(alloc, &first, table);
    assert!(rt; last_of(&mut second, table, 1) == Drawn::Number(4_001));
    assert!(rt; clock_is(table, 5_001));
}

/// Three draws tell this, and make so many calls.
pub(crate) fn draw_three<T: RowTable>(
    rt: &impl Abort,
    alloc: Global,
    table: &mut T,
    want: [Drawn; 3],
    calls: u64,
)
    requires { IsFresh (T.rows table.old) }
{
    let mut oracle = oracle_over(alloc, table);
    assert!(rt; draw(&mut oracle, table) == want[0]);
    assert!(rt; draw(&mut oracle, table) == want[1]);
    assert!(rt; draw(&mut oracle, table) == want[2]);
    assert!(rt; table.calls() == calls);
}

#[test]
fn the_error_of_a_draw_is_copied_and_told(rt: HostRuntime) {
    assert!(rt; OracleError::Spent.try_clone(rt.alloc()) == Ok(OracleError::Spent));
    let Ok(text) = format!(in rt.alloc(); "{}", OracleError::Spent) else {
        panic!(rt; "no memory");
    };
    assert!(rt; text.as_str() == "all timestamps were granted");
}
