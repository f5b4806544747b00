ghost use Rattle.std.specs.Prelude.{◌≡◌, ◌≤◌, ◌+◌, true, false, is_some, Some, IfOk};
ghost use Rattle.std.specs.Option.{option_copied};
ghost use Rattle.pcj_table.specs.Calls.{HasTableCause};
ghost use Rattle.pcj_table.specs.Table.{row_at};
ghost use Rattle.pcj_registrations.specs.Reading.{lock_commit, value_by};

use pcj_mvcc::{commit_of, version_at};
use pcj_table::{Lock, Row, RowTable, TableError};
use pcj_term::Bytes;

/// A number above every timestamp.
pub(crate) const END: u64 = 281_474_976_710_656;

/// Whether the row's lock is that of a transaction that is committed: its primary's row says so.
pub(crate) fn is_committed<T: RowTable>(table: &mut T, row: &Row) -> Result<bool, TableError>
    ensures is { IfOk result (λ is. is ≡ is_some (lock_commit (row_at (T.rows table.old)) row.now.lock)) }
    ensures same { T.rows table.new ≡ T.rows table.old }
    ensures cause { HasTableCause (T.failures table.old) (T.failures table.new) result }
    ensures calls { T.made table.new ≤ T.made table.old + 1 }
{
    match &row.lock {
        None => Ok(false),
        Some(lock) => has_commit(table, lock),
    }
}

/// Whether the primary's row of a lock has a version of the lock's start.
fn has_commit<T: RowTable>(table: &mut T, lock: &Lock) -> Result<bool, TableError>
    ensures is { IfOk result (λ is. is ≡ is_some (lock_commit (row_at (T.rows table.old)) (Some lock.now))) }
    ensures same { T.rows table.new ≡ T.rows table.old }
    ensures cause { HasTableCause (T.failures table.old) (T.failures table.new) result }
    ensures calls { T.made table.new ≤ T.made table.old + 1 }
{
    match table.get(lock.primary.as_slice())? {
        None => Ok(false),
        Some(primary) => Ok(commit_of(&primary, lock.start).is_some()),
    }
}

/// The value that stands in a row, by whether its lock's transaction is committed.
pub(crate) fn value_in(row: &Row, committed: bool) -> Option<&Bytes>
    ensures { option_copied result ≡ value_by row.now committed }
{
    if committed {
        lock_value(row)
    } else {
        last_value(row)
    }
}

/// The value of the row's lock.
fn lock_value(row: &Row) -> Option<&Bytes>
    ensures { option_copied result ≡ value_by row.now true }
{
    match &row.lock {
        None => None,
        Some(lock) => lock.value.as_ref(),
    }
}

/// The value of the row's newest version.
fn last_value(row: &Row) -> Option<&Bytes>
    ensures { option_copied result ≡ value_by row.now false }
{
    match version_at(row, END) {
        None => None,
        Some(version) => version.value.as_ref(),
    }
}
