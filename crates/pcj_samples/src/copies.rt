//! Copies of what owns memory: each holds what its source holds.

use crate::change::Change;
use crate::rows::{CONDITIONS, full_row};
use crate::told::numbers;
use pcj_table::{Cond, Found, Lock, Mutated, Pair, Row, TableError, Update, Write};
use pcj_term::{Bytes, TryClone};
use std::alloc::Global;
use std::process::Abort;

fn bytes(rt: &impl Abort, alloc: Global, text: &[u8]) -> Bytes {
    match Bytes::from_slice(alloc, text) {
        Ok(bytes) => bytes,
        Err(_) => panic!(rt; "no memory"),
    }
}

/// Whether a row has all that `full_row` has.
fn is_full(row: &Row) -> bool {
    numbers(row) == [3, 5, 8, 7] && row.lock.as_ref().is_some_and(is_on_p) && has_no_plain(row)
}

fn is_on_p(lock: &Lock) -> bool {
    lock.primary.as_slice() == b"p".as_slice()
}

fn has_no_plain(row: &Row) -> bool {
    row.plain
        .as_ref()
        .is_some_and(|plain| plain.value.is_none())
}

fn copies_row(alloc: Global, row: &Row) -> bool {
    match row.try_clone(alloc) {
        Ok(copy) => is_full(&copy),
        Err(_) => false,
    }
}

#[test]
fn a_row_is_copied(rt: HostRuntime) {
    assert!(rt; copies_row(rt.alloc(), &full_row(&rt, rt.alloc())));
}

fn copies_found(alloc: Global, found: &Found) -> bool {
    match found.try_clone(alloc) {
        Ok(copy) => copy.key == found.key && is_full(&copy.row),
        Err(_) => false,
    }
}

#[test]
fn a_found_row_is_copied(rt: HostRuntime) {
    let found = Found {
        key: bytes(&rt, rt.alloc(), b"k"),
        row: full_row(&rt, rt.alloc()),
    };
    assert!(rt; copies_found(rt.alloc(), &found));
}

fn copies_pair(alloc: Global, pair: &Pair) -> bool {
    match pair.try_clone(alloc) {
        Ok(copy) => copy.key == pair.key && copy.value.as_slice() == b"v".as_slice(),
        Err(_) => false,
    }
}

#[test]
fn a_pair_is_copied(rt: HostRuntime) {
    let pair = Pair {
        key: bytes(&rt, rt.alloc(), b"k"),
        value: bytes(&rt, rt.alloc(), b"v"),
    };
    assert!(rt; copies_pair(rt.alloc(), &pair));
}

fn copies_deletion(alloc: Global, write: &Write) -> bool {
    match write.try_clone(alloc) {
        Ok(copy) => copy.key == write.key && copy.value.is_none(),
        Err(_) => false,
    }
}

#[test]
fn a_write_is_copied(rt: HostRuntime) {
    let write = Write {
        key: bytes(&rt, rt.alloc(), b"k"),
        value: None,
    };
    assert!(rt; copies_deletion(rt.alloc(), &write));
}

fn copies_rejection(alloc: Global, rejected: &Mutated) -> bool {
    match rejected.try_clone(alloc) {
        Ok(Mutated::Rejected(row)) => is_full(&row),
        Ok(Mutated::Applied) | Err(_) => false,
    }
}

fn copies_success(alloc: Global, applied: &Mutated) -> bool {
    match applied.try_clone(alloc) {
        Ok(copy) => matches!(&copy, Mutated::Applied),
        Err(_) => false,
    }
}

#[test]
fn what_became_of_a_mutation_is_copied(rt: HostRuntime) {
    let rejected = Mutated::Rejected(full_row(&rt, rt.alloc()));
    assert!(rt; copies_rejection(rt.alloc(), &rejected));
    assert!(rt; copies_success(rt.alloc(), &Mutated::Applied));
}

/// Carries out a copy of an update.
fn set_copy(alloc: Global, row: &mut Row, update: &Update) -> bool {
    match update.try_clone(alloc) {
        Ok(copy) => row.update(copy).is_ok(),
        Err(_) => false,
    }
}

/// A copy of an update makes this of a row.
fn makes(rt: &impl Abort, alloc: Global, row: &mut Row, change: Change, want: [u64; 4]) {
    let Ok(update) = change.update(alloc) else {
        panic!(rt; "no memory");
    };
    assert!(rt; set_copy(alloc, row, &update));
    assert!(rt; numbers(row) == want);
}

#[test]
fn updates_are_copied_and_carried_out(rt: HostRuntime) {
    let mut row = Row::new(rt.alloc());
    makes(&rt, rt.alloc(), &mut row, Change::Lock(3), [3, 0, 0, 0]);
    assert!(rt; !row.has_nothing());
    makes(&rt, rt.alloc(), &mut row, Change::Unlock, [0; 4]);
    assert!(rt; row.has_nothing());
    makes(&rt, rt.alloc(), &mut row, Change::Put(5), [0, 5, 0, 0]);
    makes(&rt, rt.alloc(), &mut row, Change::Plain(7), [0, 5, 0, 7]);
}

fn copies_cond(alloc: Global, cond: Cond) -> bool {
    match cond.try_clone(alloc) {
        Ok(copy) => copy == cond,
        Err(_) => false,
    }
}

#[test]
fn conditions_and_errors_are_copied(rt: HostRuntime) {
    for at in 0..11 {
        assert!(rt; copies_cond(rt.alloc(), CONDITIONS[at]));
    }
    assert!(rt; TableError::Failed.try_clone(rt.alloc()) == Ok(TableError::Failed));
    assert!(rt; TableError::Memory.try_clone(rt.alloc()) == Ok(TableError::Memory));
}
