//! A table that fails on one of its calls, and answers the same calls after it.

use crate::change::Change;
use crate::told::{Told, change_both, count, counts, get, next_is, next_lock_is};
use pcj_table::RowTable;
use std::alloc::Global;
use std::process::Abort;

/// The five calls, each once: the row `k` gets a plain value and a lock and is then met in each way. Tells which of them
/// were answered as is right where none before it failed.
fn five_calls<T: RowTable>(alloc: Global, table: &mut T) -> [bool; 5] {
    let key = b"k";
    [
        change_both(alloc, table, key, Change::Plain(1), Change::Lock(3)) == Told::Applied,
        get(table, key) == Told::Row([3, 0, 0, 1]),
        next_is(table, b"", b"z", 0, Some(key)),
        next_lock_is(table, b"", Some(key)),
        count(table, b"", b"z") == Told::Count(1),
    ]
}

/// The second to the fifth call where the first has failed, and no row is there.
fn four_calls_of_no_row<T: RowTable>(table: &mut T) -> [bool; 4] {
    [
        get(table, b"k") == Told::Absent,
        next_is(table, b"", b"z", 0, None),
        next_lock_is(table, b"", None),
        count(table, b"", b"z") == Told::Count(0),
    ]
}

/// The call of this number, from 2 to 5, fails and no other, or none of the first ten where the number is above ten.
pub(crate) fn fail_on_one<T: RowTable>(rt: &impl Abort, alloc: Global, table: &mut T, call: usize) {
    let first = five_calls(alloc, table);
    for at in 0..5 {
        assert!(rt; first[at] == (at + 1 != call));
    }
    answer_after(rt, alloc, table, if call > 10 { 0 } else { 1 });
}

/// The first call fails and leaves no row.
pub(crate) fn fail_on_the_first<T: RowTable>(rt: &impl Abort, alloc: Global, table: &mut T) {
    let failed = change_both(alloc, table, b"k", Change::Plain(1), Change::Lock(3));
    assert!(rt; failed == Told::Failed);
    assert!(rt; four_calls_of_no_row(table) == [true; 4]);
    answer_after(rt, alloc, table, 1);
}

/// After five calls the same five are answered.
fn answer_after<T: RowTable>(rt: &impl Abort, alloc: Global, table: &mut T, faults: u64) {
    assert!(rt; counts(table) == (faults, 5));
    assert!(rt; five_calls(alloc, table) == [true; 5]);
    assert!(rt; counts(table) == (faults, 10));
}
