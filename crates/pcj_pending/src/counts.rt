ghost use Rattle.std.specs.Prelude.{◌≡◌, ◌≤◌, ◌+◌, nat_lt, IfOk};
ghost use Rattle.pcj_table.specs.Calls.{HasTableCause};
ghost use Rattle.pcj_table.specs.Table.{row_at};
ghost use Rattle.pcj_pending.specs.Pending.{IsFit, locks_of, notifications_of};

use crate::Pending;
use crate::walk::{count_locked, count_seen, is_any_seen};
use pcj_encode::{KeyRange, task_range};
use pcj_table::{RowTable, TableError};
use std::alloc::Global;

/// A number above every timestamp.
const END: u64 = 281_474_976_710_656;

/// How much is pending, in a table that transactions are at work on. Nothing is changed.
///
/// It makes one call of the table for each notification and each lock, and two more. It answers `Failed` where one of them
/// fails, and `Memory` where there is no room for a key.
pub fn pending<T: RowTable>(alloc: Global, table: &mut T) -> Result<Pending, TableError>
    // What is counted, and that nothing is changed.
    ensures notifications { IsFit (row_at (T.rows table.old)) → IfOk result (λ pending. pending.notifications ≡ notifications_of (T.rows table.old)) }
    ensures locks { IsFit (row_at (T.rows table.old)) → IfOk result (λ pending. pending.locks ≡ locks_of (T.rows table.old)) }
    ensures same { T.rows table.new ≡ T.rows table.old }

    // When an error comes, and the calls of the table.
    ensures cause { HasTableCause (T.failures table.old) (T.failures table.new) result }
    ensures calls { IsFit (row_at (T.rows table.old)) → T.made table.new ≤ T.made table.old + notifications_of (T.rows table.old) + locks_of (T.rows table.old) + 2 }
{
    let notifications = count_notifications(alloc, table)?;
    let locks = count_locks(alloc, table)?;
    Ok(Pending {
        notifications,
        locks,
    })
}

/// How many tasks stand, or have a lock.
///
/// It makes one call of the table for each, and one more. Errors come as those of `pending`.
pub fn count_notifications<T: RowTable>(alloc: Global, table: &mut T) -> Result<u64, TableError>
    ensures count { IsFit (row_at (T.rows table.old)) → IfOk result (λ count. count ≡ notifications_of (T.rows table.old)) }
    ensures same { T.rows table.new ≡ T.rows table.old }
    ensures cause { HasTableCause (T.failures table.old) (T.failures table.new) result }
    ensures calls { IsFit (row_at (T.rows table.old)) → T.made table.new ≤ T.made table.old + notifications_of (T.rows table.old) + 1 }
{
    let KeyRange { after, end } = task_range(alloc)?;
    count_seen(table, after, end.as_slice(), END)
}

/// Whether a task stands, or has a lock.
///
/// It makes one call of the table. Errors come as those of `pending`.
pub fn has_notification<T: RowTable>(alloc: Global, table: &mut T) -> Result<bool, TableError>
    ensures some { IsFit (row_at (T.rows table.old)) → IfOk result (λ some. some ≡ nat_lt 0 (notifications_of (T.rows table.old))) }
    ensures same { T.rows table.new ≡ T.rows table.old }
    ensures cause { HasTableCause (T.failures table.old) (T.failures table.new) result }
    ensures calls { T.made table.new ≤ T.made table.old + 1 }
{
    let KeyRange { after, end } = task_range(alloc)?;
    is_any_seen(table, after.as_slice(), end.as_slice(), END)
}

/// How many rows have a lock.
///
/// It makes one call of the table for each, and one more. Errors come as those of `pending`.
pub fn count_locks<T: RowTable>(alloc: Global, table: &mut T) -> Result<u64, TableError>
    ensures count { IsFit (row_at (T.rows table.old)) → IfOk result (λ count. count ≡ locks_of (T.rows table.old)) }
    ensures same { T.rows table.new ≡ T.rows table.old }
    ensures cause { HasTableCause (T.failures table.old) (T.failures table.new) result }
    ensures calls { IsFit (row_at (T.rows table.old)) → T.made table.new ≤ T.made table.old + locks_of (T.rows table.old) + 1 }
{
    count_locked(alloc, table)
}
