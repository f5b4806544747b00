//! What is written of events, answers and a transaction's errors. It is written of a copy, so that a copy is made of each.

use pcj_actor::ActorEvent;
use pcj_case_lines::{Answer, Unanswered};
use pcj_moves::Answer as Read;
use pcj_oracle::OracleError;
use pcj_recover::RecoveryEvent;
use pcj_snapshot::ReadEvent;
use pcj_table::{Pair, Plain, Row, TableError, Version};
use pcj_term::{Bytes, TryClone};
use pcj_txn::{TxnError, TxnEvent};

/// Goes on with the word: a mark and bytes of ASCII.
fn go_on(out: &mut Answer, mark: u8, bytes: &[u8]) -> Result<(), Unanswered> {
    out.go_on(&[mark])?;
    out.go_on(bytes)
}

/// Goes on with the word: a mark and a number.
fn go_on_with_number(out: &mut Answer, mark: u8, number: u64) -> Result<(), Unanswered> {
    let text = format!(in out.alloc; "{number}")?;
    go_on(out, mark, text.as_bytes())
}

/// Adds the lock that was met.
pub(crate) fn show_met(out: &mut Answer, key: &[u8], start: u64) -> Result<(), Unanswered> {
    out.word("met")?;
    go_on(out, b':', key)?;
    go_on_with_number(out, b'@', start)
}

/// Adds what a step of a transaction came to.
pub(crate) fn show_txn(out: &mut Answer, event: &TxnEvent) -> Result<(), Unanswered> {
    let copy = event.try_clone(out.alloc)?;
    show_txn_copy(out, &copy)
}

fn show_txn_copy(out: &mut Answer, event: &TxnEvent) -> Result<(), Unanswered> {
    match event {
        TxnEvent::Prewrote => out.word("prewrote"),
        TxnEvent::MetLock { key, lock } => show_met(out, key.as_slice(), lock.start),
        TxnEvent::Conflict { key, commit } => show_at(out, "conflict", key.as_slice(), *commit),
        TxnEvent::DrewCommit(commit) => show_number(out, "drew", *commit),
        TxnEvent::Committed(commit) => show_number(out, "committed", *commit),
        TxnEvent::PrimaryLost(row) => {
            out.word("lost")?;
            show_row(out, row)
        }
        TxnEvent::SecondaryDone => out.word("settled"),
        TxnEvent::Done => out.word("done"),
    }
}

fn show_at(out: &mut Answer, word: &str, key: &[u8], number: u64) -> Result<(), Unanswered> {
    out.word(word)?;
    go_on(out, b':', key)?;
    go_on_with_number(out, b'@', number)
}

/// Adds a word with a number.
pub(crate) fn show_number(out: &mut Answer, word: &str, number: u64) -> Result<(), Unanswered> {
    out.word(word)?;
    go_on_with_number(out, b':', number)
}

/// Adds what a step of a recovery came to.
pub(crate) fn show_recovery(out: &mut Answer, event: RecoveryEvent) -> Result<(), Unanswered> {
    match event.try_clone(out.alloc)? {
        RecoveryEvent::Working => out.word("working"),
        RecoveryEvent::RolledForward => out.word("forward"),
        RecoveryEvent::RolledBack => out.word("back"),
    }
}

/// Adds what a read came to.
pub(crate) fn show_read(out: &mut Answer, event: &ReadEvent) -> Result<(), Unanswered> {
    let copy = event.try_clone(out.alloc)?;
    show_read_copy(out, &copy)
}

fn show_read_copy(out: &mut Answer, event: &ReadEvent) -> Result<(), Unanswered> {
    match event {
        ReadEvent::Nothing => out.word("nothing"),
        ReadEvent::MetLock { key, lock } => show_met(out, key.as_slice(), lock.start),
        ReadEvent::Found(pair) => {
            out.word("found")?;
            go_on(out, b':', pair.key.as_slice())?;
            go_on(out, b'=', pair.value.as_slice())
        }
    }
}

/// Adds what a step of an actor came to, with all that it has read where it has read something.
pub(crate) fn show_actor(
    out: &mut Answer,
    event: &ActorEvent,
    answers: &[Read],
) -> Result<(), Unanswered> {
    match event {
        ActorEvent::Rests => out.word("rests"),
        ActorEvent::Answered => show_answers(out, answers),
        ActorEvent::Met => out.word("met"),
        ActorEvent::Recovers(event) => show_recovery(out, *event),
        ActorEvent::Put { applied: true } => out.word("put"),
        ActorEvent::Put { applied: false } => out.word("stands"),
        ActorEvent::Writes(event) => show_txn(out, event),
    }
}

fn show_answers(out: &mut Answer, answers: &[Read]) -> Result<(), Unanswered> {
    out.word("answered:")?;
    for answer in answers {
        show_answer(out, answer)?;
    }
    Ok(())
}

/// Adds what was asked for, and behind it what was found.
fn show_answer(out: &mut Answer, answer: &Read) -> Result<(), Unanswered> {
    let copy = answer.try_clone(out.alloc)?;
    show_answer_copy(out, &copy)
}

fn show_answer_copy(out: &mut Answer, answer: &Read) -> Result<(), Unanswered> {
    match answer {
        Read::OfRow { key, found } => {
            go_on(out, b'[', key.as_slice())?;
            show_found_value(out, found)?;
        }
        Read::OfRange { after, end, found } => {
            go_on(out, b'[', after.as_slice())?;
            go_on(out, b'-', end.as_slice())?;
            show_found_pair(out, found)?;
        }
    }
    go_on(out, b']', b"")
}

fn show_found_value(out: &mut Answer, found: &Option<Bytes>) -> Result<(), Unanswered> {
    match found {
        Some(value) => go_on(out, b'=', value.as_slice()),
        None => Ok(()),
    }
}

fn show_found_pair(out: &mut Answer, found: &Option<Pair>) -> Result<(), Unanswered> {
    match found {
        Some(pair) => {
            go_on(out, b':', pair.key.as_slice())?;
            go_on(out, b'=', pair.value.as_slice())
        }
        None => Ok(()),
    }
}

/// Adds the lock of a row, its versions and its plain value.
pub(crate) fn show_row(out: &mut Answer, row: &Row) -> Result<(), Unanswered> {
    go_on(out, b'[', b"")?;
    if let Some(lock) = &row.lock {
        go_on_with_number(out, b'L', lock.start)?;
    }
    for version in row.versions.as_slice() {
        show_version(out, version)?;
    }
    if let Some(plain) = &row.plain {
        show_plain(out, plain)?;
    }
    go_on(out, b']', b"")
}

fn show_plain(out: &mut Answer, plain: &Plain) -> Result<(), Unanswered> {
    go_on_with_number(out, b'P', plain.seq)?;
    match &plain.value {
        Some(value) => go_on(out, b'=', value.as_slice()),
        None => Ok(()),
    }
}

fn show_version(out: &mut Answer, version: &Version) -> Result<(), Unanswered> {
    go_on_with_number(out, b'V', version.start)?;
    go_on_with_number(out, b'@', version.commit)
}

/// Adds why a call of the table did nothing.
pub(crate) fn show_table_error(out: &mut Answer, error: TableError) -> Result<(), Unanswered> {
    match error {
        TableError::Failed => out.word("failed"),
        TableError::Memory => Err(Unanswered::Memory),
    }
}

/// Adds why no number was drawn.
pub(crate) fn show_oracle_error(out: &mut Answer, error: OracleError) -> Result<(), Unanswered> {
    match error {
        OracleError::Failed => out.word("failed"),
        OracleError::Spent => out.word("spent"),
        OracleError::Memory => Err(Unanswered::Memory),
    }
}

/// Adds why a step of a transaction did nothing.
pub(crate) fn show_txn_error(out: &mut Answer, error: TxnError) -> Result<(), Unanswered> {
    match error.try_clone(out.alloc)? {
        TxnError::Failed => out.word("failed"),
        TxnError::Spent => out.word("spent"),
        TxnError::Memory => Err(Unanswered::Memory),
    }
}
