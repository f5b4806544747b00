//! Notifications and locks of a table, counted.

use crate::change::Change;
use crate::told::{Told, change, counts};
use pcj_pending::{Pending, has_notification, pending};
use pcj_table::RowTable;
use std::alloc::Global;
use std::process::Abort;

/// The number of notifications, that of locks, and that of the calls that were made for them.
fn told<T: RowTable>(alloc: Global, table: &mut T) -> Option<[u64; 3]> {
    let before = table.calls();
    match pending(alloc, table) {
        Err(_) => None,
        Ok(
            Pending {
                notifications,
                locks,
            },
        ) => Some([notifications, locks, table.calls().saturating_sub(before)]),
    }
}

/// Whether there is a notification.
fn has_any<T: RowTable>(alloc: Global, table: &mut T) -> Option<bool> {
    has_notification(alloc, table).ok()
}

/// After a change of one row so much is told.
fn tells<T: RowTable>(
    rt: &impl Abort,
    alloc: Global,
    table: &mut T,
    key: &[u8],
    what: Change,
    want: [u64; 3],
) {
    assert!(rt; change(alloc, table, key, &[], what) == Told::Applied);
    assert!(rt; told(alloc, table) == Some(want));
    assert!(rt; has_any(alloc, table) == Some(want[0] > 0));
}

/// A task is counted once, whether it has a lock, a put or both, and not where it was deleted.
pub(crate) fn count_tasks_once<T: RowTable>(rt: &impl Abort, alloc: Global, table: &mut T) {
    assert!(rt; told(alloc, table) == Some([0, 0, 2]));
    tells(
        rt,
        alloc,
        table,
        b"n\0t\0<a:a>\0",
        Change::Lock(1),
        [1, 1, 4],
    );
    tells(
        rt,
        alloc,
        table,
        b"n\0t\0<a:a>\0",
        Change::Put(2),
        [1, 1, 4],
    );
    tells(
        rt,
        alloc,
        table,
        b"n\0t\0<a:a>\0",
        Change::Unlock,
        [1, 0, 3],
    );
    tells(
        rt,
        alloc,
        table,
        b"n\0t\0<a:b>\0",
        Change::Put(4),
        [2, 0, 4],
    );
    tells(
        rt,
        alloc,
        table,
        b"n\0t\0<a:a>\0",
        Change::Delete(6),
        [1, 0, 3],
    );
    tells(
        rt,
        alloc,
        table,
        b"n\0t\0<a:a>\0",
        Change::Lock(281_474_976_710_655),
        [2, 1, 5],
    );
}

/// Locks are counted in rows of every kind, also in the first and the last; puts are counted in those of tasks alone.
pub(crate) fn count_locks_of_all_rows<T: RowTable>(rt: &impl Abort, alloc: Global, table: &mut T) {
    tells(rt, alloc, table, b"s\0<a:a>\0", Change::Put(2), [0, 0, 2]);
    tells(rt, alloc, table, b"z\0", Change::Plain(1_001), [0, 0, 2]);
    tells(rt, alloc, table, b"s\0<a:b>\0", Change::Lock(3), [0, 1, 3]);
    tells(rt, alloc, table, b"a\0q\0", Change::Lock(5), [0, 2, 4]);
    tells(rt, alloc, table, b"n\0b\0", Change::Lock(5), [1, 3, 6]);
    tells(rt, alloc, table, b"t\0", Change::Put(8), [1, 3, 6]);
}

/// The first call fails, and then the second one of the next count; after that nothing does.
pub(crate) fn tell_of_faults<T: RowTable>(rt: &impl Abort, alloc: Global, table: &mut T) {
    assert!(rt; told(alloc, table) == None);
    assert!(rt; counts(table) == (1, 1));
    assert!(rt; told(alloc, table) == None);
    assert!(rt; counts(table) == (2, 3));
    assert!(rt; told(alloc, table) == Some([0, 0, 2]));
}
