use crate::act::{lock, show_lock, show_version};
use crate::argument::value;
use pcj_case_lines::{Answer, Unanswered, number, word};
use pcj_mvcc::{commit_of, lock_at, version_at};
use pcj_table::{Row, Update, Version};
use pcj_term::Bytes;
use std::alloc::Global;

/// The row that fields spell by fours: `lock` with a start, a primary and a value, or `version` with a commit, a start
/// and a value. The versions are added in this order.
fn row(alloc: Global, fields: &[Bytes]) -> Result<Row, Unanswered> {
    let mut row = Row::new(alloc);
    for part in fields.chunks(4) {
        add(alloc, &mut row, part)?;
    }
    Ok(row)
}

fn add(alloc: Global, row: &mut Row, part: &[Bytes]) -> Result<(), Unanswered> {
    let update = update(alloc, part)?;
    Ok(row.update(update)?)
}

fn update(alloc: Global, part: &[Bytes]) -> Result<Update, Unanswered> {
    let [kind, first, second, third] = part else {
        return Err(Unanswered::NoCase);
    };
    match word(kind) {
        "lock" => Ok(Update::SetLock(lock(alloc, first, second, third)?)),
        "version" => Ok(Update::AddVersion(version(alloc, first, second, third)?)),
        _ => Err(Unanswered::NoCase),
    }
}

fn version(
    alloc: Global,
    commit: &Bytes,
    start: &Bytes,
    field: &Bytes,
) -> Result<Version, Unanswered> {
    Ok(Version {
        commit: number(commit)?,
        start: number(start)?,
        value: value(alloc, field)?,
    })
}

/// Answers a read of a row up to or of a timestamp, which is the first field; the row follows.
pub(crate) fn read_case(
    alloc: Global,
    out: &mut Answer,
    call: &str,
    arguments: &[Bytes],
) -> Result<(), Unanswered> {
    let [at, fields @ ..] = arguments else {
        return Err(Unanswered::NoCase);
    };
    let at = number(at)?;
    let row = row(alloc, fields)?;
    show_read(out, call, &row, at)
}

fn show_read(out: &mut Answer, call: &str, row: &Row, at: u64) -> Result<(), Unanswered> {
    match call {
        "commit_of" => show_commit(out, commit_of(row, at)),
        "lock_at" => show_lock_at(out, row, at),
        "version_at" => show_version_at(out, row, at),
        _ => Err(Unanswered::NoCase),
    }
}

fn show_commit(out: &mut Answer, commit: Option<u64>) -> Result<(), Unanswered> {
    match commit {
        Some(commit) => out.number(commit),
        None => out.word("none"),
    }
}

fn show_lock_at(out: &mut Answer, row: &Row, at: u64) -> Result<(), Unanswered> {
    match lock_at(row, at) {
        Some(lock) => {
            out.word("lock")?;
            show_lock(out, lock)
        }
        None => out.word("none"),
    }
}

fn show_version_at(out: &mut Answer, row: &Row, at: u64) -> Result<(), Unanswered> {
    match version_at(row, at) {
        Some(version) => {
            out.word("version")?;
            show_version(out, version)
        }
        None => out.word("none"),
    }
}
