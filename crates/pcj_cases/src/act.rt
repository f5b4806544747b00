use crate::argument::value;
use pcj_case_lines::{Answer, Unanswered, number};
use pcj_mvcc::{Act, commit_row, prewrite, roll_back_row, roll_forward_row};
use pcj_table::{Cond, Lock, Update, Version, Write};
use pcj_term::{Bytes, Memory, TryClone};
use std::alloc::Global;

/// Adds the conditions of an act and then its updates.
fn show(out: &mut Answer, act: &Act) -> Result<(), Unanswered> {
    for cond in act.conds.as_slice() {
        show_cond(out, *cond)?;
    }
    for update in act.updates.as_slice() {
        show_update(out, update)?;
    }
    Ok(())
}

fn show_cond(out: &mut Answer, cond: Cond) -> Result<(), Unanswered> {
    match cond {
        Cond::NoLock => out.word("no_lock"),
        Cond::LockIs(start) => numbered(out, "lock_is", start),
        Cond::NoVersionFrom(commit) => numbered(out, "no_version_from", commit),
        Cond::PlainBelow(seq) => numbered(out, "plain_below", seq),
    }
}

fn numbered(out: &mut Answer, word: &str, number: u64) -> Result<(), Unanswered> {
    out.word(word)?;
    out.number(number)
}

fn show_update(out: &mut Answer, update: &Update) -> Result<(), Unanswered> {
    match update {
        Update::SetLock(lock) => {
            out.word("set_lock")?;
            show_lock(out, lock)
        }
        Update::DropLock => out.word("drop_lock"),
        Update::AddVersion(version) => {
            out.word("add_version")?;
            show_version(out, version)
        }
        Update::SetPlain(plain) => {
            numbered(out, "set_plain", plain.seq)?;
            show_value(out, &plain.value)
        }
    }
}

/// Adds a lock's start, its primary and its value.
pub(crate) fn show_lock(out: &mut Answer, lock: &Lock) -> Result<(), Unanswered> {
    out.number(lock.start)?;
    out.bytes(lock.primary.as_slice())?;
    show_value(out, &lock.value)
}

/// Adds a version's commit, its start and its value.
pub(crate) fn show_version(out: &mut Answer, version: &Version) -> Result<(), Unanswered> {
    out.number(version.commit)?;
    out.number(version.start)?;
    show_value(out, &version.value)
}

fn show_value(out: &mut Answer, value: &Option<Bytes>) -> Result<(), Unanswered> {
    match value {
        Some(bytes) => out.marked("+", bytes.as_slice()),
        None => out.word("-"),
    }
}

fn write(alloc: Global, key: &Bytes, field: &Bytes) -> Result<Write, Unanswered> {
    Ok(Write {
        key: key.try_clone(alloc)?,
        value: value(alloc, field)?,
    })
}

/// Adds an act that was made.
fn show_made(out: &mut Answer, act: Result<Act, Memory>) -> Result<(), Unanswered> {
    let act = act?;
    show(out, &act)
}

fn prewrite_of(alloc: Global, arguments: &[Bytes]) -> Result<Act, Unanswered> {
    let [key, value, start, primary] = arguments else {
        return Err(Unanswered::NoCase);
    };
    let start = number(start)?;
    let write = write(alloc, key, value)?;
    Ok(prewrite(alloc, &write, start, primary.as_slice())?)
}

/// `prewrite KEY VALUE START PRIMARY`: the act.
pub(crate) fn prewrite_case(
    alloc: Global,
    out: &mut Answer,
    arguments: &[Bytes],
) -> Result<(), Unanswered> {
    let act = prewrite_of(alloc, arguments)?;
    show(out, &act)
}

/// `copy_prewrite KEY VALUE START PRIMARY`: a copy of the act.
pub(crate) fn copy_prewrite_case(
    alloc: Global,
    out: &mut Answer,
    arguments: &[Bytes],
) -> Result<(), Unanswered> {
    let act = prewrite_of(alloc, arguments)?;
    show_made(out, act.try_clone(alloc))
}

/// `commit_row KEY VALUE START COMMIT`: the act.
pub(crate) fn commit_case(
    alloc: Global,
    out: &mut Answer,
    arguments: &[Bytes],
) -> Result<(), Unanswered> {
    let [key, value, start, commit] = arguments else {
        return Err(Unanswered::NoCase);
    };
    let start = number(start)?;
    let commit = number(commit)?;
    let write = write(alloc, key, value)?;
    show_made(out, commit_row(alloc, &write, start, commit))
}

/// The lock that a start, a primary and a value spell.
pub(crate) fn lock(
    alloc: Global,
    start: &Bytes,
    primary: &Bytes,
    field: &Bytes,
) -> Result<Lock, Unanswered> {
    Ok(Lock {
        start: number(start)?,
        primary: primary.try_clone(alloc)?,
        value: value(alloc, field)?,
    })
}

/// `roll_forward_row START PRIMARY VALUE COMMIT`: the act for a lock of these three.
pub(crate) fn roll_forward_case(
    alloc: Global,
    out: &mut Answer,
    arguments: &[Bytes],
) -> Result<(), Unanswered> {
    let [start, primary, value, commit] = arguments else {
        return Err(Unanswered::NoCase);
    };
    let commit = number(commit)?;
    let lock = lock(alloc, start, primary, value)?;
    show_made(out, roll_forward_row(alloc, &lock, commit))
}

/// `roll_back_row START`: the act.
pub(crate) fn roll_back_case(
    alloc: Global,
    out: &mut Answer,
    arguments: &[Bytes],
) -> Result<(), Unanswered> {
    let [start] = arguments else {
        return Err(Unanswered::NoCase);
    };
    let start = number(start)?;
    show_made(out, roll_back_row(alloc, start))
}
