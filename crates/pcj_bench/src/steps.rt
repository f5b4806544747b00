ghost use Rattle.pcj_oracle.specs.Clock.{IsClock};

use crate::failure::Failure;
use crate::row_table::scattered;
use pcj_memtable::MemTable;
use pcj_oracle::Oracle;
use pcj_table::{RowTable, Write};
use pcj_term::{Bytes, Items};
use pcj_txn::{Txn, TxnError, TxnEvent};
use std::alloc::Global;
use std::fmt;
use std::time::{Clock, Duration, Instant};

/// How many rows the table has.
const ROWS: u32 = 10_000;

/// How long the steps of transactions took that write each row of a table once more.
#[derive(Clone, Copy)]
pub struct StepTimes {
    /// How many rows each of them writes.
    writes: u32,
    steps: u64,
    calls: u64,
    time: Duration,
}

impl From<TxnError> for Failure {
    fn from(error: TxnError) -> Self {
        match error {
            TxnError::Failed | TxnError::Spent => Failure::System,
            TxnError::Memory => Failure::Memory,
        }
    }
}

impl fmt::Display for StepTimes {
    fn fmt<W: fmt::Write>(&self, f: &mut fmt::Formatter<W>) -> fmt::Result {
        let steps = u128::from(self.steps);
        let time = self.time.as_nanos().checked_div(steps).unwrap_or(0);
        let calls = u128::from(self.calls).saturating_mul(1_000);
        let calls = calls.checked_div(steps).unwrap_or(0);
        write!(
            f,
            "{} writes: a step {time} ns, {}.{:03} table calls",
            self.writes,
            calls / 1_000,
            calls % 1_000
        )
    }
}

/// How long a step of a transaction of so many writes takes, over a table in which a first transaction has put each row.
pub fn measure_steps(clock: &impl Clock, alloc: Global, writes: u32) -> Result<StepTimes, Failure> {
    let mut table = MemTable::new(alloc, Items::new(alloc));
    let mut oracle = Oracle::new(alloc);
    write_rows(clock, alloc, &mut table, &mut oracle, 0, ROWS)?;
    write_parts(clock, alloc, &mut table, &mut oracle, writes)
}

/// Writes all rows, a transaction for each part of so many of them.
fn write_parts<T: RowTable>(
    clock: &impl Clock,
    alloc: Global,
    table: &mut T,
    oracle: &mut Oracle,
    writes: u32,
) -> Result<StepTimes, Failure>
    requires { IsClock oracle.old (T.rows table.old) }
{
    let before = table.calls();
    let (mut steps, mut time): (u64, Duration) = (0, Duration::ZERO);
    for part in 0..ROWS.checked_div(writes).unwrap_or(0) {
        let (made, took) = write_rows(
            clock,
            alloc,
            table,
            oracle,
            part.saturating_mul(writes),
            writes,
        )?;
        steps = steps.saturating_add(made);
        time = time.saturating_add(took);
    }
    Ok(StepTimes {
        writes,
        steps,
        calls: table.calls().saturating_sub(before),
        time,
    })
}

/// Writes so many rows from a number on in one transaction. How many steps that took, and how long.
fn write_rows<T: RowTable>(
    clock: &impl Clock,
    alloc: Global,
    table: &mut T,
    oracle: &mut Oracle,
    first: u32,
    count: u32,
) -> Result<(u64, Duration), Failure>
    requires { IsClock oracle.old (T.rows table.old) }
    ensures { IsClock oracle.new (T.rows table.new) }
{
    let start = oracle.draw(table)?;
    let mut txn = Txn::new(alloc, start, writes_from(alloc, first, count)?);
    let begun = Instant::now(clock)?;
    let steps = carry_out(&mut txn, table, oracle)?;
    Ok((steps, begun.elapsed(clock)?))
}

/// Carries a transaction out to its end, in at most two steps for each row and two more. How many steps that took.
fn carry_out<T: RowTable>(txn: &mut Txn, table: &mut T, oracle: &mut Oracle) -> Result<u64, Failure>
    requires { IsClock oracle.old (T.rows table.old) }
    ensures { IsClock oracle.new (T.rows table.new) }
{
    let mut steps: u64 = 0;
    for _ in 0..=ROWS.saturating_mul(2) {
        if let TxnEvent::Done = txn.step(table, oracle)? {
            return Ok(steps);
        }
        steps = steps.saturating_add(1);
    }
    Ok(steps)
}

fn writes_from(alloc: Global, first: u32, count: u32) -> Result<Items<Write>, Failure> {
    let mut writes = Items::new(alloc);
    for number in first..first.saturating_add(count) {
        writes.push(write_of(alloc, number)?)?;
    }
    Ok(writes)
}

/// A put of a short value. The keys are in no order.
fn write_of(alloc: Global, number: u32) -> Result<Write, Failure> {
    let key = scattered(u64::from(number)).to_be_bytes();
    Ok(Write {
        key: Bytes::from_slice(alloc, &key)?,
        value: Some(Bytes::from_slice(alloc, b"value")?),
    })
}
