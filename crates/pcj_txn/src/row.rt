ghost use Rattle.std.specs.Prelude.{◌≡◌, is_ok, IfOk, OnErr};
ghost use Rattle.pcj_table.specs.Calls.{HasTableCause};
ghost use Rattle.pcj_oracle.specs.Clock.{stored_number};
ghost use Rattle.pcj_mvcc.specs.Acts.{prewrite_act, commit_act};
ghost use Rattle.pcj_mvcc.specs.Reading.{CarriesOut};
ghost use Rattle.pcj_txn.specs.Errors.{MakesStepCalls};

use pcj_mvcc::{commit_row, prewrite};
use pcj_table::{Mutated, RowTable, TableError, Write};
use std::alloc::Global;

/// Locks the row of a write.
pub(crate) fn lock_row<T: RowTable>(
    alloc: Global,
    table: &mut T,
    write: &Write,
    start: u64,
    primary: &[u8],
) -> Result<Mutated, TableError>
    ensures done { IfOk result (λ done. CarriesOut (T.rows table.old) write.now.key (prewrite_act write.now start primary.now) done (T.rows table.new)) }
    ensures err { OnErr result (T.rows table.new ≡ T.rows table.old) }
    ensures number { stored_number (T.rows table.new) ≡ stored_number (T.rows table.old) }
    ensures cause { HasTableCause (T.failures table.old) (T.failures table.new) result }
    ensures calls { MakesStepCalls 1 (T.made table.old) (T.made table.new) (is_ok result) }
{
    let act = prewrite(alloc, write, start, primary)?;
    act.carry_out(table, write.key.as_slice())
}

/// Makes the lock of a row a version.
pub(crate) fn unlock_row<T: RowTable>(
    alloc: Global,
    table: &mut T,
    write: &Write,
    start: u64,
    commit: u64,
) -> Result<Mutated, TableError>
    ensures done { IfOk result (λ done. CarriesOut (T.rows table.old) write.now.key (commit_act write.now start commit) done (T.rows table.new)) }
    ensures err { OnErr result (T.rows table.new ≡ T.rows table.old) }
    ensures number { stored_number (T.rows table.new) ≡ stored_number (T.rows table.old) }
    ensures cause { HasTableCause (T.failures table.old) (T.failures table.new) result }
    ensures calls { MakesStepCalls 1 (T.made table.old) (T.made table.new) (is_ok result) }
{
    let act = commit_row(alloc, write, start, commit)?;
    act.carry_out(table, write.key.as_slice())
}
