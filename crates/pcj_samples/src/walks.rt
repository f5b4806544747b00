//! Walks over a table, by timestamp and by lock.

use crate::change::Change;
use crate::told::{Told, change, count, next_is, next_lock_is};
use pcj_table::RowTable;
use std::alloc::Global;
use std::process::Abort;

/// Rows under keys of which one begins another: a lock alone, a put and then a deletion, a deletion alone, a plain
/// value alone, a plain value that was deleted, a put.
pub(crate) fn fill<T: RowTable>(rt: &impl Abort, alloc: Global, table: &mut T) {
    add(rt, alloc, table, b"b", Change::Plain(1));
    add(rt, alloc, table, b"a", Change::Lock(3));
    add(rt, alloc, table, b"c", Change::Put(5));
    add(rt, alloc, table, b"abc", Change::Delete(5));
    add(rt, alloc, table, b"ab", Change::Put(5));
    add(rt, alloc, table, b"ab", Change::Delete(8));
    add(rt, alloc, table, b"bb", Change::NoPlain(1));
}

fn add<T: RowTable>(rt: &impl Abort, alloc: Global, table: &mut T, key: &[u8], what: Change) {
    assert!(rt; change(alloc, table, key, &[], what) == Told::Applied);
}

/// Each step of a walk, from below the least key, from a key and from between two of them.
pub(crate) fn go_from_key_to_key<T: RowTable>(rt: &impl Abort, alloc: Global, table: &mut T) {
    fill(rt, alloc, table);
    steps_to(rt, table, b"", b"z", 0, Some(b"b"));
    steps_to(rt, table, b"", b"z", 3, Some(b"a"));
    steps_to(rt, table, b"", b"a", 3, None);
    steps_to(rt, table, b"a", b"z", 4, Some(b"b"));
    steps_to(rt, table, b"a", b"z", 5, Some(b"ab"));
    steps_to(rt, table, b"a", b"ab", 5, None);
    steps_to(rt, table, b"a", b"abc", 5, Some(b"ab"));
    steps_to(rt, table, b"aa", b"z", 7, Some(b"ab"));
    steps_to(rt, table, b"aa", b"z", 8, Some(b"b"));
    steps_to(rt, table, b"b", b"z", 4, None);
    steps_to(rt, table, b"b", b"z", 5, Some(b"c"));
    steps_to(rt, table, b"c", b"z", 9, None);
}

fn steps_to<T: RowTable>(
    rt: &impl Abort,
    table: &mut T,
    after: &[u8],
    end: &[u8],
    at: u64,
    want: Option<&[u8]>,
) {
    assert!(rt; next_is(table, after, end, at, want));
}

/// A walk over the locks, and how many rows are counted between two keys.
pub(crate) fn meet_locks_and_count<T: RowTable>(rt: &impl Abort, alloc: Global, table: &mut T) {
    fill(rt, alloc, table);
    assert!(rt; next_lock_is(table, b"", Some(b"a")));
    assert!(rt; next_lock_is(table, b"a", None));
    counts_to(rt, table, b"", b"z", 2);
    counts_to(rt, table, b"b", b"c", 1);
    counts_to(rt, table, b"c", b"z", 1);
    counts_to(rt, table, b"a", b"b", 0);
    counts_to(rt, table, b"ab", b"abc", 0);
}

fn counts_to<T: RowTable>(rt: &impl Abort, table: &mut T, from: &[u8], end: &[u8], rows: u64) {
    assert!(rt; count(table, from, end) == Told::Count(rows));
}

/// Whole walks, each at its time.
pub(crate) fn see_what_was_there<T: RowTable>(rt: &impl Abort, alloc: Global, table: &mut T) {
    fill(rt, alloc, table);
    sees(rt, table, 0, &[b"b"]);
    sees(rt, table, 2, &[b"b"]);
    sees(rt, table, 3, &[b"a", b"b"]);
    sees(rt, table, 4, &[b"a", b"b"]);
    sees(rt, table, 5, &[b"a", b"ab", b"b", b"c"]);
    sees(rt, table, 6, &[b"a", b"ab", b"b", b"c"]);
    sees(rt, table, 7, &[b"a", b"ab", b"b", b"c"]);
    sees(rt, table, 8, &[b"a", b"b", b"c"]);
    sees(rt, table, u64::MAX, &[b"a", b"b", b"c"]);
}

/// A walk at a time meets these keys, and no more.
fn sees<T: RowTable>(rt: &impl Abort, table: &mut T, at: u64, keys: &[&[u8]]) {
    let mut after: &[u8] = b"";
    for key in keys {
        assert!(rt; next_is(table, after, b"z", at, Some(*key)));
        after = *key;
    }
    assert!(rt; next_is(table, after, b"z", at, None));
}
