ghost use Rattle.std.specs.Prelude.{◌≡◌, ◌≤◌};
ghost use Rattle.pcj_oracle.specs.Clock.{IsClock, stored_number};

use crate::client::Client;
use crate::clock::leave_numbers;
use crate::scene::Scene;
use crate::show::{
    show_number, show_oracle_error, show_read, show_recovery, show_row, show_table_error, show_txn,
    show_txn_error,
};
use pcj_case_lines::{Answer, Unanswered};
use pcj_encode::KeyRange;
use pcj_oracle::Oracle;
use pcj_recover::Recovery;
use pcj_snapshot::{ReadEvent, SnapRead};
use pcj_table::{RowTable, Write};
use pcj_term::{Bytes, Items};
use pcj_txn::{Txn, TxnEvent};
use std::alloc::Global;

/// Carries out the steps of some words, and adds what each came to.
pub(crate) fn answer_words<T: RowTable>(
    scene: &mut Scene,
    table: &mut T,
    out: &mut Answer,
    words: &str,
) -> Result<(), Unanswered>
    requires { IsClock scene.old.oracle (T.rows table.old) }
{
    for word in words.split(' ') {
        answer_word(scene, table, out, word.as_bytes())?;
    }
    Ok(())
}

fn answer_word<T: RowTable>(
    scene: &mut Scene,
    table: &mut T,
    out: &mut Answer,
    word: &[u8],
) -> Result<(), Unanswered>
    requires { IsClock scene.old.oracle (T.rows table.old) }
    ensures { IsClock scene.new.oracle (T.rows table.new) }
{
    match word {
        b"d" => draw(&mut scene.oracle, table, out),
        b"1" => step_first(scene, table, out),
        b"2" => step_second(scene, table, out),
        b"r" => step_read(scene, table, out),
        b"c" => step_recovery(&mut scene.recovery, table, out),
        b"A+" => begin_actor_a(scene, table, out),
        b"B+" => begin_actor_b(scene, table, out),
        b"A" => step_actor(&mut scene.actor_a, &mut scene.oracle, table, out),
        b"B" => step_actor(&mut scene.actor_b, &mut scene.oracle, table, out),
        [b'A', words @ ..] => ask_actor(&mut scene.actor_a, out, words),
        [b'B', words @ ..] => ask_actor(&mut scene.actor_b, out, words),
        [b'^', left] => {
            leave_numbers(scene.alloc, &mut scene.oracle, table, out, number_of(*left))
        }
        [b'?', key] => answer_row(table, out, *key),
        [b'1', keys @ ..] => begin_first(scene, table, out, keys),
        [b'2', keys @ ..] => begin_second(scene, table, out, keys),
        [b'r', key] => begin_get(scene, table, out, *key),
        [b'n', after, end] => begin_next(scene, table, out, *after, *end),
        _ => Err(Unanswered::NoCase),
    }
}

// ---- numbers

/// The number that a digit stands for.
pub(crate) fn number_of(digit: u8) -> u64
    ensures { result ≤ 255 }
{
    u64::from(digit.wrapping_sub(b'0'))
}

/// Draws a number, if there is one.
fn drawn<T: RowTable>(
    oracle: &mut Oracle,
    table: &mut T,
    out: &mut Answer,
) -> Result<Option<u64>, Unanswered>
    requires { IsClock oracle.old (T.rows table.old) }
    ensures { IsClock oracle.new (T.rows table.new) }
{
    match oracle.draw(table) {
        Ok(number) => {
            show_number(out, "at", number)?;
            Ok(Some(number))
        }
        Err(error) => {
            show_oracle_error(out, error)?;
            Ok(None)
        }
    }
}

fn draw<T: RowTable>(oracle: &mut Oracle, table: &mut T, out: &mut Answer) -> Result<(), Unanswered>
    requires { IsClock oracle.old (T.rows table.old) }
    ensures { IsClock oracle.new (T.rows table.new) }
{
    drawn(oracle, table, out)?;
    Ok(())
}

// ---- transactions

/// Writes of rows, each with this value.
fn writes(alloc: Global, keys: &[u8], value: u8) -> Result<Items<Write>, Unanswered> {
    let mut writes = Items::new(alloc);
    for key in keys {
        writes.push(write(alloc, *key, value)?)?;
    }
    Ok(writes)
}

pub(crate) fn write(alloc: Global, key: u8, value: u8) -> Result<Write, Unanswered> {
    Ok(Write {
        key: Bytes::from_slice(alloc, &[key])?,
        value: Some(Bytes::from_slice(alloc, &[value])?),
    })
}

/// A transaction that begins at the next number, if there is one.
fn begun<T: RowTable>(
    alloc: Global,
    oracle: &mut Oracle,
    table: &mut T,
    out: &mut Answer,
    writes: Items<Write>,
) -> Result<Option<Txn>, Unanswered>
    requires { IsClock oracle.old (T.rows table.old) }
    ensures { IsClock oracle.new (T.rows table.new) }
{
    match drawn(oracle, table, out)? {
        Some(start) => Ok(Some(Txn::new(alloc, start, writes))),
        None => Ok(None),
    }
}

fn begin_first<T: RowTable>(
    scene: &mut Scene,
    table: &mut T,
    out: &mut Answer,
    keys: &[u8],
) -> Result<(), Unanswered>
    requires { IsClock scene.old.oracle (T.rows table.old) }
    ensures { IsClock scene.new.oracle (T.rows table.new) }
{
    let writes = writes(scene.alloc, keys, b'1')?;
    scene.first = begun(scene.alloc, &mut scene.oracle, table, out, writes)?;
    Ok(())
}

fn begin_second<T: RowTable>(
    scene: &mut Scene,
    table: &mut T,
    out: &mut Answer,
    keys: &[u8],
) -> Result<(), Unanswered>
    requires { IsClock scene.old.oracle (T.rows table.old) }
    ensures { IsClock scene.new.oracle (T.rows table.new) }
{
    let writes = writes(scene.alloc, keys, b'2')?;
    scene.second = begun(scene.alloc, &mut scene.oracle, table, out, writes)?;
    Ok(())
}

/// A step of a transaction, and the recovery of the lock that it met.
fn step_txn<T: RowTable>(
    alloc: Global,
    txn: &mut Option<Txn>,
    oracle: &mut Oracle,
    table: &mut T,
    out: &mut Answer,
) -> Result<Option<Recovery>, Unanswered>
    requires { IsClock oracle.old (T.rows table.old) }
    ensures { IsClock oracle.new (T.rows table.new) }
{
    let Some(txn) = txn else {
        out.word("nobody")?;
        return Ok(None);
    };
    match txn.step(table, oracle) {
        Ok(event) => shown_txn(alloc, out, event),
        Err(error) => {
            show_txn_error(out, error)?;
            Ok(None)
        }
    }
}

fn shown_txn(
    alloc: Global,
    out: &mut Answer,
    event: TxnEvent,
) -> Result<Option<Recovery>, Unanswered> {
    show_txn(out, &event)?;
    Ok(met_by_txn(alloc, event))
}

fn met_by_txn(alloc: Global, event: TxnEvent) -> Option<Recovery> {
    match event {
        TxnEvent::MetLock { key, lock } => Some(Recovery::new(alloc, key, lock)),
        _ => None,
    }
}

fn step_first<T: RowTable>(
    scene: &mut Scene,
    table: &mut T,
    out: &mut Answer,
) -> Result<(), Unanswered>
    requires { IsClock scene.old.oracle (T.rows table.old) }
    ensures { IsClock scene.new.oracle (T.rows table.new) }
{
    let met = step_txn(scene.alloc, &mut scene.first, &mut scene.oracle, table, out)?;
    meet(&mut scene.recovery, met);
    Ok(())
}

fn step_second<T: RowTable>(
    scene: &mut Scene,
    table: &mut T,
    out: &mut Answer,
) -> Result<(), Unanswered>
    requires { IsClock scene.old.oracle (T.rows table.old) }
    ensures { IsClock scene.new.oracle (T.rows table.new) }
{
    let met = step_txn(
        scene.alloc,
        &mut scene.second,
        &mut scene.oracle,
        table,
        out,
    )?;
    meet(&mut scene.recovery, met);
    Ok(())
}

/// Takes up the recovery of a lock that was met.
fn meet(recovery: &mut Option<Recovery>, met: Option<Recovery>) {
    if met.is_some() {
        *recovery = met;
    }
}

// ---- recoveries and reads

fn step_recovery<T: RowTable>(
    recovery: &mut Option<Recovery>,
    table: &mut T,
    out: &mut Answer,
) -> Result<(), Unanswered>
    ensures { stored_number (T.rows table.new) ≡ stored_number (T.rows table.old) }
{
    let Some(recovery) = recovery else {
        return out.word("nobody");
    };
    match recovery.step(table) {
        Ok(event) => show_recovery(out, event),
        Err(error) => show_table_error(out, error),
    }
}

fn begin_get<T: RowTable>(
    scene: &mut Scene,
    table: &mut T,
    out: &mut Answer,
    key: u8,
) -> Result<(), Unanswered>
    requires { IsClock scene.old.oracle (T.rows table.old) }
    ensures { IsClock scene.new.oracle (T.rows table.new) }
{
    let key = Bytes::from_slice(scene.alloc, &[key])?;
    let Some(at) = drawn(&mut scene.oracle, table, out)? else {
        return Ok(());
    };
    scene.read = Some(SnapRead::get(scene.alloc, key, at));
    Ok(())
}

fn begin_next<T: RowTable>(
    scene: &mut Scene,
    table: &mut T,
    out: &mut Answer,
    after: u8,
    end: u8,
) -> Result<(), Unanswered>
    requires { IsClock scene.old.oracle (T.rows table.old) }
    ensures { IsClock scene.new.oracle (T.rows table.new) }
{
    let range = range(scene.alloc, after, end)?;
    let Some(at) = drawn(&mut scene.oracle, table, out)? else {
        return Ok(());
    };
    scene.read = Some(SnapRead::next(scene.alloc, range, at));
    Ok(())
}

pub(crate) fn range(alloc: Global, after: u8, end: u8) -> Result<KeyRange, Unanswered> {
    Ok(KeyRange {
        after: Bytes::from_slice(alloc, &[after])?,
        end: Bytes::from_slice(alloc, &[end])?,
    })
}

fn step_read<T: RowTable>(
    scene: &mut Scene,
    table: &mut T,
    out: &mut Answer,
) -> Result<(), Unanswered>
    ensures oracle { scene.new.oracle ≡ scene.old.oracle }
    ensures rows { T.rows table.new ≡ T.rows table.old }
{
    let Some(read) = &mut scene.read else {
        return out.word("nobody");
    };
    match read.step(table) {
        Ok(event) => {
            let met = shown_read(scene.alloc, out, event)?;
            meet(&mut scene.recovery, met);
            Ok(())
        }
        Err(error) => show_table_error(out, error),
    }
}

fn shown_read(
    alloc: Global,
    out: &mut Answer,
    event: ReadEvent,
) -> Result<Option<Recovery>, Unanswered> {
    show_read(out, &event)?;
    Ok(met_by_read(alloc, event))
}

fn met_by_read(alloc: Global, event: ReadEvent) -> Option<Recovery> {
    match event {
        ReadEvent::MetLock { key, lock } => Some(Recovery::new(alloc, key, lock)),
        _ => None,
    }
}

// ---- actors

/// An actor that begins at the next number, if there is one.
fn begun_actor<T: RowTable>(
    alloc: Global,
    oracle: &mut Oracle,
    table: &mut T,
    out: &mut Answer,
    letter: u8,
) -> Result<Option<Client>, Unanswered>
    requires { IsClock oracle.old (T.rows table.old) }
    ensures { IsClock oracle.new (T.rows table.new) }
{
    match drawn(oracle, table, out)? {
        Some(start) => Ok(Some(Client::new(alloc, start, letter))),
        None => Ok(None),
    }
}

fn begin_actor_a<T: RowTable>(
    scene: &mut Scene,
    table: &mut T,
    out: &mut Answer,
) -> Result<(), Unanswered>
    requires { IsClock scene.old.oracle (T.rows table.old) }
    ensures { IsClock scene.new.oracle (T.rows table.new) }
{
    scene.actor_a = begun_actor(scene.alloc, &mut scene.oracle, table, out, b'A')?;
    Ok(())
}

fn begin_actor_b<T: RowTable>(
    scene: &mut Scene,
    table: &mut T,
    out: &mut Answer,
) -> Result<(), Unanswered>
    requires { IsClock scene.old.oracle (T.rows table.old) }
    ensures { IsClock scene.new.oracle (T.rows table.new) }
{
    scene.actor_b = begun_actor(scene.alloc, &mut scene.oracle, table, out, b'B')?;
    Ok(())
}

fn ask_actor(
    client: &mut Option<Client>,
    out: &mut Answer,
    words: &[u8],
) -> Result<(), Unanswered> {
    let Some(client) = client else {
        return out.word("nobody");
    };
    client.ask(out, words)
}

fn step_actor<T: RowTable>(
    client: &mut Option<Client>,
    oracle: &mut Oracle,
    table: &mut T,
    out: &mut Answer,
) -> Result<(), Unanswered>
    requires { IsClock oracle.old (T.rows table.old) }
    ensures { IsClock oracle.new (T.rows table.new) }
{
    let Some(client) = client else {
        return out.word("nobody");
    };
    client.step(oracle, table, out)
}

// ---- rows

fn answer_row<T: RowTable>(table: &mut T, out: &mut Answer, key: u8) -> Result<(), Unanswered>
    ensures { T.rows table.new ≡ T.rows table.old }
{
    match table.get(&[key]) {
        Ok(Some(row)) => {
            out.word("row")?;
            show_row(out, &row)
        }
        Ok(None) => out.word("none"),
        Err(error) => show_table_error(out, error),
    }
}
