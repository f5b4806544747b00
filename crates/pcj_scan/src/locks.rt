ghost use Rattle.std.specs.Prelude.{◌≡◌, ◌≤◌, ◌+◌, [], Some, ℕ, OnOk};
ghost use Rattle.pcj_table.specs.Calls.{HasTableCause};
ghost use Rattle.pcj_table.specs.Table.{row_at};
ghost use Rattle.pcj_recover.specs.Steps.{KeepPlain};
ghost use Rattle.pcj_pending.specs.Pending.{locks_of};
ghost use Rattle.pcj_scan.specs.Ranges.{AddsNoRow};
ghost use Rattle.pcj_scan.specs.Readers.{ReadsInPart, ReadsOn};

use pcj_recover::{Recovery, RecoveryEvent};
use pcj_table::{Lock, RowTable, TableError};
use pcj_term::Bytes;
use std::alloc::Global;

/// Takes away a lock that was met on the row of this key: what it locks is rolled forward or back.
pub(crate) fn take_away<T: RowTable>(
    alloc: Global,
    key: Bytes,
    lock: Lock,
    table: &mut T,
) -> Result<(), TableError>
    requires { (row_at (T.rows table.old) key).lock ≡ Some lock }

    // It is what a reader of any start may do, and the lock is gone.
    ensures part { (start : ℕ) → ReadsInPart start (row_at (T.rows table.old)) (row_at (T.rows table.new)) }
    ensures whole { OnOk result ((start : ℕ) → ReadsOn start (row_at (T.rows table.old)) [] (row_at (T.rows table.new))) }
    ensures gone { OnOk result (locks_of (T.rows table.new) + 1 ≤ locks_of (T.rows table.old)) }

    // What stays, when an error comes, and the calls of the table.
    ensures plain { KeepPlain (T.rows table.old) (T.rows table.new) }
    ensures rows { AddsNoRow (T.rows table.old) (T.rows table.new) }
    ensures some { 1 ≤ locks_of (T.rows table.old) }
    ensures cause { HasTableCause (T.failures table.old) (T.failures table.new) result }
    ensures calls { T.made table.new ≤ T.made table.old + 3 }
{
    let mut recovery = Recovery::new(alloc, key, lock);
    while let RecoveryEvent::Working = recovery.step(table)? {}
    Ok(())
}
