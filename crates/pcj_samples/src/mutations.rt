//! Mutations of one row: what guards them, what they leave, and that an empty row is none.

use crate::change::Change;
use crate::told::{Told, ask, change, change_both, get};
use crate::walks::fill;
use pcj_table::{Cond, RowTable};
use std::alloc::Global;
use std::process::Abort;

/// A plain value of a lower number than the one that stands is turned away, and the row is told.
pub(crate) fn guard_plain_values<T: RowTable>(rt: &impl Abort, alloc: Global, table: &mut T) {
    let first = change(alloc, table, b"k", &[Cond::PlainBelow(7)], Change::Plain(7));
    assert!(rt; first == Told::Applied);
    let second = change(alloc, table, b"k", &[Cond::PlainBelow(5)], Change::Plain(5));
    assert!(rt; second == Told::Rejected([0, 0, 0, 7]));
}

/// A row that nothing is left of is gone, and a mutation of an absent row that leaves nothing makes none.
pub(crate) fn leave_no_empty_row<T: RowTable>(rt: &impl Abort, alloc: Global, table: &mut T) {
    fill(rt, alloc, table);
    let held = change(alloc, table, b"a", &[Cond::LockIs(3)], Change::Unlock);
    assert!(rt; held == Told::Applied);
    assert!(rt; get(table, b"a") == Told::Absent);
    let absent = change(alloc, table, b"zz", &[Cond::NoLock], Change::Unlock);
    assert!(rt; absent == Told::Applied);
    assert!(rt; get(table, b"zz") == Told::Absent);
    assert!(rt; ask(table, b"a", &[Cond::LockIs(3)]) == Told::Rejected([0; 4]));
    assert!(rt; get(table, b"b") == Told::Row([0, 0, 0, 1]));
}

/// A lock, no lock, a version or a plain value, of this start, commit or number.
fn change_of(letter: u8, number: u64) -> Change {
    match letter {
        b'l' => Change::Lock(number),
        b'v' => Change::Put(number),
        b'p' => Change::Plain(number),
        _ => Change::Unlock,
    }
}

/// The row of a key has these numbers, or is absent where they are all 0.
fn has<T: RowTable>(rt: &impl Abort, table: &mut T, key: &[u8], numbers: [u64; 4]) {
    let want = if numbers == [0; 4] {
        Told::Absent
    } else {
        Told::Row(numbers)
    };
    assert!(rt; get(table, key) == want);
}

/// Each update alone, on a row that has nothing.
pub(crate) fn change_alone<T: RowTable>(rt: &impl Abort, alloc: Global, table: &mut T) {
    alone(rt, alloc, table, b'l', [3, 0, 0, 0]);
    alone(rt, alloc, table, b'd', [0, 0, 0, 0]);
    alone(rt, alloc, table, b'v', [0, 3, 0, 0]);
    alone(rt, alloc, table, b'p', [0, 0, 0, 3]);
}

fn alone<T: RowTable>(
    rt: &impl Abort,
    alloc: Global,
    table: &mut T,
    letter: u8,
    numbers: [u64; 4],
) {
    let done = change(alloc, table, &[letter], &[], change_of(letter, 3));
    assert!(rt; done == Told::Applied);
    has(rt, table, &[letter], numbers);
}

/// Each two updates of which the first is a lock or its end, in one mutation of a row that has nothing.
pub(crate) fn change_locks_and_then<T: RowTable>(rt: &impl Abort, alloc: Global, table: &mut T) {
    pair(rt, alloc, table, b'l', b'l', [2, 0, 0, 0]);
    pair(rt, alloc, table, b'l', b'd', [0, 0, 0, 0]);
    pair(rt, alloc, table, b'l', b'v', [3, 2, 0, 0]);
    pair(rt, alloc, table, b'l', b'p', [3, 0, 0, 2]);
    pair(rt, alloc, table, b'd', b'l', [2, 0, 0, 0]);
    pair(rt, alloc, table, b'd', b'd', [0, 0, 0, 0]);
    pair(rt, alloc, table, b'd', b'v', [0, 2, 0, 0]);
    pair(rt, alloc, table, b'd', b'p', [0, 0, 0, 2]);
}

/// Each two updates of which the first is a version or a plain value, in one mutation of a row that has nothing.
pub(crate) fn change_values_and_then<T: RowTable>(rt: &impl Abort, alloc: Global, table: &mut T) {
    pair(rt, alloc, table, b'v', b'l', [2, 3, 0, 0]);
    pair(rt, alloc, table, b'v', b'd', [0, 3, 0, 0]);
    pair(rt, alloc, table, b'v', b'v', [0, 2, 3, 0]);
    pair(rt, alloc, table, b'v', b'p', [0, 3, 0, 2]);
    pair(rt, alloc, table, b'p', b'l', [2, 0, 0, 3]);
    pair(rt, alloc, table, b'p', b'd', [0, 0, 0, 3]);
    pair(rt, alloc, table, b'p', b'v', [0, 2, 0, 3]);
    pair(rt, alloc, table, b'p', b'p', [0, 0, 0, 2]);
}

fn pair<T: RowTable>(
    rt: &impl Abort,
    alloc: Global,
    table: &mut T,
    first: u8,
    second: u8,
    numbers: [u64; 4],
) {
    let key = [first, second];
    let done = change_both(
        alloc,
        table,
        &key,
        change_of(first, 3),
        change_of(second, 2),
    );
    assert!(rt; done == Told::Applied);
    has(rt, table, &key, numbers);
}
