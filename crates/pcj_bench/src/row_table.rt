use crate::engine::Engine;
use crate::failure::Failure;
use pcj_memtable::MemTable;
use pcj_pages::PageTable;
use pcj_table::{Cond, Plain, RowTable, TableError, Update};
use pcj_term::{Bytes, Items, TryClone};
use std::alloc::Global;
use std::fmt;
use std::time::{Clock, Instant};

/// How long calls took on tables of some rows, in nanoseconds.
#[derive(Clone, Copy)]
pub struct RowTimes {
    engine: Engine,
    rows: u32,
    rounds: u32,
    insertions: u128,
    gets: u128,
    nexts: u128,
}

impl RowTimes {
    /// The mean time of a call, where each round made one for each row.
    fn mean(&self, total: u128) -> u128 {
        let calls = u128::from(self.rows).saturating_mul(u128::from(self.rounds));
        total.checked_div(calls).unwrap_or(0)
    }
}

impl fmt::Display for RowTimes {
    fn fmt<W: fmt::Write>(&self, f: &mut fmt::Formatter<W>) -> fmt::Result {
        let (insertion, get, next) = (
            self.mean(self.insertions),
            self.mean(self.gets),
            self.mean(self.nexts),
        );
        write!(
            f,
            "{}, {} rows: insertion {insertion} ns, get {get} ns, next {next} ns",
            self.engine, self.rows
        )
    }
}

impl From<TableError> for Failure {
    fn from(error: TableError) -> Self {
        match error {
            TableError::Failed => Failure::System,
            TableError::Memory => Failure::Memory,
        }
    }
}

/// How many rows are put into new tables before the mean is taken.
const ALL_ROWS: u32 = 100_000;

/// How long it takes to put a row into a growing table, to get a row, in a random order of keys, and to go from one
/// row to the next. A vector of more rows than that is filled in ascending order, as a random one takes hours.
pub fn measure_row_table(
    clock: &impl Clock,
    alloc: Global,
    engine: Engine,
    rows: u32,
) -> Result<RowTimes, Failure> {
    let is_long = rows > ALL_ROWS && matches!(engine, Engine::Vector);
    let keys = keys(alloc, rows, is_long)?;
    let rounds = ALL_ROWS.checked_div(rows).unwrap_or(1).max(1);
    let (mut insertions, mut gets, mut nexts): (u128, u128, u128) = (0, 0, 0);
    for _ in 0..rounds {
        let (insertion, get, next) = measure_engine(clock, alloc, engine, &keys)?;
        insertions = insertions.saturating_add(insertion);
        gets = gets.saturating_add(get);
        nexts = nexts.saturating_add(next);
    }
    Ok(RowTimes {
        engine,
        rows,
        rounds,
        insertions,
        gets,
        nexts,
    })
}

/// The keys of so many rows, as numbers, in a random or in ascending order.
fn keys(alloc: Global, rows: u32, ascend: bool) -> Result<Vec<u64>, Failure> {
    let mut keys = Vec::new(alloc);
    for number in 0..rows {
        keys.push(scattered(u64::from(number)))?;
    }
    if ascend {
        keys.sort_unstable();
    }
    Ok(keys)
}

/// The nanoseconds in which a new table of the engine is filled, each row is got, and all rows are walked.
fn measure_engine(
    clock: &impl Clock,
    alloc: Global,
    engine: Engine,
    keys: &[u64],
) -> Result<(u128, u128, u128), Failure> {
    let none = Items::new(alloc);
    match engine {
        Engine::Vector => measure_table(clock, alloc, &mut MemTable::new(alloc, none), keys),
        Engine::Pages => measure_table(clock, alloc, &mut PageTable::new(alloc, none), keys),
    }
}

/// The nanoseconds in which an empty table is filled, each row is got, and all rows are walked.
fn measure_table<T: RowTable>(
    clock: &impl Clock,
    alloc: Global,
    table: &mut T,
    keys: &[u64],
) -> Result<(u128, u128, u128), Failure> {
    let begun = Instant::now(clock)?;
    fill(alloc, table, keys)?;
    let insertions = begun.elapsed(clock)?.as_nanos();
    let begun = Instant::now(clock)?;
    get_each(table, keys.len() as u64)?;
    let gets = begun.elapsed(clock)?.as_nanos();
    let begun = Instant::now(clock)?;
    walk(alloc, table, keys.len())?;
    Ok((insertions, gets, begun.elapsed(clock)?.as_nanos()))
}

fn fill<T: RowTable>(alloc: Global, table: &mut T, keys: &[u64]) -> Result<(), Failure> {
    for key in keys {
        let plain = Plain {
            seq: 1,
            value: Some(Bytes::from_slice(alloc, b"value")?),
        };
        table.mutate(
            &key.to_be_bytes(),
            &[Cond::NoLock],
            &[Update::SetPlain(plain)],
        )?;
    }
    Ok(())
}

/// Gets each row once, in a random order of keys.
fn get_each<T: RowTable>(table: &mut T, rows: u64) -> Result<(), Failure> {
    for number in 0..rows {
        let key = scattered(number).to_be_bytes();
        table.get(&key)?;
    }
    Ok(())
}

/// Goes from each row to the next, in the order of keys.
fn walk<T: RowTable>(alloc: Global, table: &mut T, rows: usize) -> Result<(), Failure> {
    let mut after = Bytes::new(alloc);
    for _ in 0..rows {
        after = key_after(alloc, table, after.as_slice())?;
    }
    Ok(())
}

/// The key of the row after a key, or the empty one where there is none.
fn key_after<T: RowTable>(alloc: Global, table: &mut T, after: &[u8]) -> Result<Bytes, Failure> {
    match table.next(after, &[0xff; 9], u64::MAX)? {
        None => Ok(Bytes::new(alloc)),
        Some(found) => Ok(found.key.try_clone(alloc)?),
    }
}

/// The last step of the generator SplitMix64 (Steele, Lea and Flood, 2014), which maps distinct numbers to
/// distinct ones in no order.
pub(crate) fn scattered(number: u64) -> u64 {
    let once = (number ^ (number >> 30)).wrapping_mul(0xbf58_476d_1ce4_e5b9);
    let twice = (once ^ (once >> 27)).wrapping_mul(0x94d0_49bb_1331_11eb);
    twice ^ (twice >> 31)
}
