ghost use Rattle.std.specs.Prelude.{◌≡◌, ◌⊎◌, IfOk, OnOk, OnErr};
ghost use Rattle.pcj_table.specs.Calls.{HasTableCause, counted};
ghost use Rattle.pcj_table.specs.Row.{is_locked_at};
ghost use Rattle.pcj_table.specs.Table.{row_at};
ghost use Rattle.pcj_mvcc.specs.Reading.{commit_of, committed};
ghost use Rattle.pcj_recover.specs.Progress.{primary_of, primary_seen};
ghost use Rattle.pcj_recover.specs.Steps.{Drops};

use pcj_mvcc::{commit_of, roll_back_row};
use pcj_table::{Cond, Mutated, Row, RowTable, TableError};
use std::alloc::Global;

/// What is known of the row of a lock's primary.
#[derive(Clone, Copy)]
pub enum Primary {
    /// It wasn't looked at.
    Unread,
    /// It had the lock of the transaction.
    Locked,
    /// It has neither the lock nor a version of the transaction.
    Gone,
    /// It has a version of the transaction, with this commit timestamp.
    Committed(u64),
}

impl Primary {
    /// What is known where no lock stands, by the commit of the version.
    pub(crate) fn of(commit: Option<u64>) -> Primary
        ensures { result ≡ primary_of commit }
    {
        match commit {
            Some(commit) => Primary::Committed(commit),
            None => Primary::Gone,
        }
    }

    /// What a row says as the primary of the transaction of this start timestamp.
    pub(crate) fn seen_in(row: &Row, start: u64) -> Primary
        ensures { result ≡ primary_seen (commit_of start row.now.versions) (is_locked_at start row.now.lock) }
    {
        match commit_of(row, start) {
            None if Cond::LockIs(start).holds(row) => Primary::Locked,
            commit => Primary::of(commit),
        }
    }
}

/// Looks at a row as the primary of the transaction of a start timestamp.
pub(crate) fn read_primary<T: RowTable>(
    table: &mut T,
    primary: &[u8],
    start: u64,
) -> Result<Primary, TableError>
    ensures found { IfOk result (λ found. found ≡ primary_seen (committed (row_at (T.rows table.old)) primary.now start) (is_locked_at start (row_at (T.rows table.old) primary.now).lock)) }
    ensures same { T.rows table.new ≡ T.rows table.old }
    ensures cause { HasTableCause (T.failures table.old) (T.failures table.new) result }
    ensures calls { T.made table.new ≡ counted (T.made table.old) }
{
    match table.get(primary)? {
        Some(row) => Ok(Primary::seen_in(&row, start)),
        None => Ok(Primary::Gone),
    }
}

/// Takes the lock of a transaction on its primary away. The answer is the commit of the version that the primary has in
/// its place, if any.
pub(crate) fn drop_primary<T: RowTable>(
    alloc: Global,
    table: &mut T,
    primary: &[u8],
    start: u64,
) -> Result<Option<u64>, TableError>
    ensures done { IfOk result (λ commit. Drops primary.now start (T.rows table.old) commit (T.rows table.new)) }
    ensures err { OnErr result (T.rows table.new ≡ T.rows table.old) }
    ensures cause { HasTableCause (T.failures table.old) (T.failures table.new) result }
    ensures calls { OnOk result (T.made table.new ≡ counted (T.made table.old)) }
    ensures most { (T.made table.new ≡ T.made table.old) ⊎ (T.made table.new ≡ counted (T.made table.old)) }
{
    let act = roll_back_row(alloc, start)?;
    match act.carry_out(table, primary)? {
        Mutated::Applied => Ok(None),
        Mutated::Rejected(row) => Ok(commit_of(&row, start)),
    }
}
