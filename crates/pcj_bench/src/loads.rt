ghost use Rattle.std.specs.Prelude.{None};
ghost use Rattle.pcj_oracle.specs.Clock.{IsClock};

use crate::engine::Engine;
use crate::failure::Failure;
use pcj_client::{Job, LoadJob};
use pcj_clients::{Clients, StepsEnd};
use pcj_encode::{KeyName, TaskName, write_key};
use pcj_memtable::MemTable;
use pcj_ntriples::read_document;
use pcj_oracle::{Oracle, OracleError};
use pcj_pages::PageTable;
use pcj_rowtables::triple_rows;
use pcj_table::{Cond, Plain, RowTable, Update};
use pcj_term::{Bytes, Items, Memory, Triple};
use std::alloc::Global;
use std::fmt;
use std::time::{Clock, Duration, Instant};

/// How many triples a document has.
const DOCUMENT: u32 = 1_000;

/// How many steps of a load are asked for: more than it takes.
const STEPS: u64 = 1_000_000;

/// How long it took to load triples into a table, and to put their rows there in the same order without a load.
#[derive(Clone, Copy)]
pub struct LoadTimes {
    engine: Engine,
    triples: u32,
    work: Work,
    insertions: Duration,
}

/// How long loads took, in how many steps, and how many calls of the table.
#[derive(Clone, Copy)]
struct Work {
    time: Duration,
    steps: u64,
    calls: u64,
}

impl From<OracleError> for Failure {
    fn from(error: OracleError) -> Self {
        match error {
            OracleError::Failed | OracleError::Spent => Failure::System,
            OracleError::Memory => Failure::Memory,
        }
    }
}

impl fmt::Display for LoadTimes {
    fn fmt<W: fmt::Write>(&self, f: &mut fmt::Formatter<W>) -> fmt::Result {
        let triples = u128::from(self.triples);
        let time = self.work.time.as_micros();
        let rate = quotient(triples.saturating_mul(1_000_000), time);
        let steps = thousandths(self.work.steps, triples);
        let calls = thousandths(self.work.calls, triples);
        let share = quotient(self.insertions.as_micros().saturating_mul(100), time);
        write!(
            f,
            "{}, {triples} triples: {rate} triples/s, {}.{:03} steps and {}.{:03} table calls a triple, insertions alone {share} % of the time",
            self.engine,
            steps / 1_000,
            steps % 1_000,
            calls / 1_000,
            calls % 1_000
        )
    }
}

/// How many thousandths of one there are to each triple.
fn thousandths(count: u64, triples: u128) -> u128 {
    quotient(u128::from(count).saturating_mul(1_000), triples)
}

/// A quotient, or 0 where the divisor is 0.
fn quotient(dividend: u128, divisor: u128) -> u128 {
    dividend.checked_div(divisor).unwrap_or(0)
}

/// How long it takes to load documents of triples into one table, in which the rows of each fall between those of
/// others.
pub fn measure_loads(
    clock: &impl Clock,
    alloc: Global,
    engine: Engine,
    triples: u32,
) -> Result<LoadTimes, Failure> {
    let documents = documents(alloc, triples)?;
    Ok(LoadTimes {
        engine,
        triples,
        work: time_loads(clock, alloc, engine, &documents)?,
        insertions: time_insertions(clock, alloc, engine, &documents)?,
    })
}

/// What it takes to load the documents into a new table.
fn time_loads(
    clock: &impl Clock,
    alloc: Global,
    engine: Engine,
    documents: &[String],
) -> Result<Work, Failure> {
    let none = Items::new(alloc);
    match engine {
        Engine::Vector => load_into(clock, alloc, &mut MemTable::new(alloc, none), documents),
        Engine::Pages => load_into(clock, alloc, &mut PageTable::new(alloc, none), documents),
    }
}

/// What it takes to load the documents into a table that had no call yet.
fn load_into<T: RowTable>(
    clock: &impl Clock,
    alloc: Global,
    table: &mut T,
    documents: &[String],
) -> Result<Work, Failure>
    requires { IsClock None (T.rows table.old) }
{
    let begun = Instant::now(clock)?;
    let steps = load_documents(alloc, table, documents)?;
    Ok(Work {
        time: begun.elapsed(clock)?,
        steps,
        calls: table.calls(),
    })
}

/// How long it takes to put the rows of the documents' triples into a new table, in the same order.
fn time_insertions(
    clock: &impl Clock,
    alloc: Global,
    engine: Engine,
    documents: &[String],
) -> Result<Duration, Failure> {
    let keys = keys_of(alloc, documents)?;
    let none = Items::new(alloc);
    match engine {
        Engine::Vector => put_into(clock, alloc, &mut MemTable::new(alloc, none), &keys),
        Engine::Pages => put_into(clock, alloc, &mut PageTable::new(alloc, none), &keys),
    }
}

/// How long it takes to put rows at the keys.
fn put_into<T: RowTable>(
    clock: &impl Clock,
    alloc: Global,
    table: &mut T,
    keys: &[Bytes],
) -> Result<Duration, Failure> {
    let begun = Instant::now(clock)?;
    put_rows(alloc, table, keys)?;
    Ok(begun.elapsed(clock)?)
}

/// Loads the documents one after another. How many steps that took.
fn load_documents<T: RowTable>(
    alloc: Global,
    table: &mut T,
    documents: &[String],
) -> Result<u64, Failure>
    requires { IsClock None (T.rows table.old) }
{
    let mut oracle = Oracle::new(alloc);
    let mut steps: u64 = 0;
    for document in documents {
        let made = load_document(alloc, table, &mut oracle, document.as_bytes())?;
        steps = steps.saturating_add(made);
    }
    Ok(steps)
}

/// Loads a document under the next number. How many steps that took.
fn load_document<T: RowTable>(
    alloc: Global,
    table: &mut T,
    oracle: &mut Oracle,
    text: &[u8],
) -> Result<u64, Failure>
    requires { IsClock oracle.old (T.rows table.old) }
    ensures { IsClock oracle.new (T.rows table.new) }
{
    let load = oracle.draw(table)?;
    let triples = read_document(alloc, text, load)?;
    let job = Job::load(LoadJob::new(alloc, load, triples));
    make_steps(alloc, table, oracle, job)
}

/// Makes a client's steps until its load is done. How many that were.
fn make_steps<T: RowTable>(
    alloc: Global,
    table: &mut T,
    oracle: &mut Oracle,
    job: Job,
) -> Result<u64, Failure>
    requires { IsClock oracle.old (T.rows table.old) }
    ensures { IsClock oracle.new (T.rows table.new) }
{
    let mut clients = Clients::new(alloc);
    clients.open(1, job)?;
    let stepped = clients.steps(1, STEPS, table, oracle)?;
    match stepped.end {
        StepsEnd::Done => Ok(stepped.count),
        _ => Err(Failure::System),
    }
}

/// The keys of the rows of the documents' triples and of their tasks, in the order in which they are written.
fn keys_of(alloc: Global, documents: &[String]) -> Result<Vec<Bytes>, Failure> {
    let mut keys = Vec::new(alloc);
    for document in documents {
        add_keys(alloc, &mut keys, document.as_bytes())?;
    }
    Ok(keys)
}

/// Adds the keys of a document.
fn add_keys(alloc: Global, keys: &mut Vec<Bytes>, text: &[u8]) -> Result<(), Failure> {
    let triples = read_document(alloc, text, 1)?;
    for triple in triples.into_vec() {
        add_rows(alloc, keys, triple)?;
    }
    Ok(())
}

/// Adds the keys of a triple's rows and of its task.
fn add_rows(alloc: Global, keys: &mut Vec<Bytes>, triple: Triple) -> Result<(), Failure> {
    append(keys, triple_rows(alloc, &triple)?)?;
    keys.push(task_key(alloc, triple)?)?;
    Ok(())
}

/// The key of a triple's task. What is owned here has one way out.
fn task_key(alloc: Global, triple: Triple) -> Result<Bytes, Memory> {
    let task = KeyName::Task(TaskName::Triple(triple));
    write_key(alloc, &task)
}

fn append(keys: &mut Vec<Bytes>, more: Items<Bytes>) -> Result<(), Failure> {
    for key in more.into_vec() {
        keys.push(key)?;
    }
    Ok(())
}

/// Puts a row at each of the keys.
fn put_rows<T: RowTable>(alloc: Global, table: &mut T, keys: &[Bytes]) -> Result<(), Failure> {
    for key in keys {
        let plain = Plain {
            seq: 1,
            value: Some(Bytes::new(alloc)),
        };
        table.mutate(key.as_slice(), &[Cond::NoLock], &[Update::SetPlain(plain)])?;
    }
    Ok(())
}

/// The texts of documents that have so many triples together.
fn documents(alloc: Global, triples: u32) -> Result<Vec<String>, Failure> {
    let mut documents = Vec::new(alloc);
    for first in (0..triples).step_by(DOCUMENT as usize) {
        documents.push(document(alloc, first, triples)?)?;
    }
    Ok(documents)
}

/// The text of the document that begins with this triple. The subjects are in no order.
fn document(alloc: Global, first: u32, triples: u32) -> Result<String, Failure> {
    let mut text = String::new(alloc);
    for number in first..triples.min(first.saturating_add(DOCUMENT)) {
        let line = format!(in alloc;
            "<http://e.org/node/{}> <http://e.org/property/{}> <http://e.org/value/{number}> .\n",
            scattered(number, triples),
            number % 10
        )?;
        text.push_str(&line)?;
    }
    Ok(text)
}

/// Maps the numbers below a total to one another, in no order: 7,919 is a prime that divides no total here.
fn scattered(number: u32, total: u32) -> u64 {
    let product = u64::from(number) * 7_919;
    product.checked_rem(u64::from(total)).unwrap_or(0)
}
