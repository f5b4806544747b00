//! A row by itself: what conditions ask of it, what walks and counts see of it, and the order of its versions.

use crate::change::Change;
use pcj_table::{Cond, Row, Update, Version};
use std::alloc::Global;
use std::process::Abort;

/// Carries out one update, and tells whether there was memory.
fn update(alloc: Global, row: &mut Row, change: Change) -> bool {
    match change.update(alloc) {
        Ok(update) => row.update(update).is_ok(),
        Err(_) => false,
    }
}

fn set(rt: &impl Abort, alloc: Global, row: &mut Row, change: Change) {
    assert!(rt; update(alloc, row, change));
}

/// A row with a lock of start 3, versions of commits 5 and 8, and a deleted plain value of number 7.
pub(crate) fn full_row(rt: &impl Abort, alloc: Global) -> Row {
    let mut row = Row::new(alloc);
    set(rt, alloc, &mut row, Change::Lock(3));
    set(rt, alloc, &mut row, Change::Put(8));
    set(rt, alloc, &mut row, Change::Put(5));
    set(rt, alloc, &mut row, Change::NoPlain(7));
    row
}

pub(crate) const CONDITIONS: [Cond; 11] = [
    Cond::NoLock,
    Cond::LockIs(2),
    Cond::LockIs(3),
    Cond::LockIs(4),
    Cond::NoVersionFrom(0),
    Cond::NoVersionFrom(7),
    Cond::NoVersionFrom(8),
    Cond::NoVersionFrom(9),
    Cond::PlainBelow(0),
    Cond::PlainBelow(7),
    Cond::PlainBelow(8),
];

/// Each condition holds of a row as is wanted, alone and with each other one.
fn conditions_hold(rt: &impl Abort, row: &Row, wants: [bool; 11]) {
    for at in 0..11 {
        assert!(rt; CONDITIONS[at].holds(row) == wants[at]);
        for other in 0..11 {
            let both = [CONDITIONS[at], CONDITIONS[other]];
            assert!(rt; row.satisfies(&both) == (wants[at] && wants[other]));
        }
    }
    assert!(rt; row.satisfies(&[]));
}

#[test]
fn conditions_hold_of_a_row_that_has_nothing(rt: HostRuntime) {
    let row = Row::new(rt.alloc());
    assert!(rt; row.has_nothing());
    let holds = [
        true, false, false, false, true, true, true, true, true, true, true,
    ];
    conditions_hold(&rt, &row, holds);
}

#[test]
fn conditions_hold_of_a_full_row(rt: HostRuntime) {
    let row = full_row(&rt, rt.alloc());
    let holds = [
        false, false, true, false, false, false, false, true, false, false, true,
    ];
    conditions_hold(&rt, &row, holds);
}

/// Adds a version of this commit and this start.
fn add(rt: &impl Abort, row: &mut Row, commit: u64, start: u64) {
    let version = Version {
        commit,
        start,
        value: None,
    };
    assert!(rt; row.update(Update::AddVersion(version)).is_ok());
}

/// Whether the version at a place has this commit and this start.
fn version_is(row: &Row, at: usize, commit: u64, start: u64) -> bool {
    match row.versions.get(at) {
        None => false,
        Some(version) => (version.commit, version.start) == (commit, start),
    }
}

#[test]
fn versions_stand_in_order_of_commit(rt: HostRuntime) {
    let mut row = Row::new(rt.alloc());
    add(&rt, &mut row, 8, 6);
    add(&rt, &mut row, 5, 4);
    add(&rt, &mut row, 8, 7);
    add(&rt, &mut row, 9, 1);
    add(&rt, &mut row, 1, 0);
    assert!(rt; version_is(&row, 0, 1, 0));
    assert!(rt; version_is(&row, 1, 5, 4));
    assert!(rt; version_is(&row, 2, 8, 6));
    assert!(rt; version_is(&row, 3, 8, 7));
    assert!(rt; version_is(&row, 4, 9, 1));
    assert!(rt; row.versions.len() == 5);
}

/// A walk at a time sees the row or not.
fn sees(rt: &impl Abort, row: &Row, at: u64, seen: bool) {
    assert!(rt; row.is_seen_at(at) == seen);
}

#[test]
fn walks_see_locks_puts_and_plain_values(rt: HostRuntime) {
    let mut row = Row::new(rt.alloc());
    sees(&rt, &row, u64::MAX, false);
    set(&rt, rt.alloc(), &mut row, Change::Lock(3));
    sees(&rt, &row, 2, false);
    sees(&rt, &row, 3, true);
    set(&rt, rt.alloc(), &mut row, Change::Unlock);
    set(&rt, rt.alloc(), &mut row, Change::Put(5));
    sees(&rt, &row, 4, false);
    sees(&rt, &row, 5, true);
    set(&rt, rt.alloc(), &mut row, Change::Delete(8));
    sees(&rt, &row, 7, true);
    sees(&rt, &row, 8, false);
    set(&rt, rt.alloc(), &mut row, Change::Plain(7));
    sees(&rt, &row, 0, true);
}

#[test]
fn puts_and_plain_values_are_counted(rt: HostRuntime) {
    let mut row = Row::new(rt.alloc());
    assert!(rt; !row.is_counted());
    set(&rt, rt.alloc(), &mut row, Change::Lock(3));
    assert!(rt; !row.is_counted());
    set(&rt, rt.alloc(), &mut row, Change::Unlock);
    set(&rt, rt.alloc(), &mut row, Change::Put(5));
    assert!(rt; row.is_counted());
    set(&rt, rt.alloc(), &mut row, Change::Delete(8));
    assert!(rt; !row.is_counted());
    set(&rt, rt.alloc(), &mut row, Change::Plain(7));
    assert!(rt; row.is_counted());
}
