ghost use Rattle.std.specs.Prelude.{◌≡◌, IfOk, OnErr};
ghost use Rattle.pcj_table.specs.Calls.{HasTableCause, counted};
ghost use Rattle.pcj_mvcc.specs.Acts.{prewrite_act, commit_act, roll_forward_act, roll_back_act, replace_lock_act};
ghost use Rattle.pcj_mvcc.specs.Reading.{CarriesOut};

use pcj_table::{Cond, Lock, Mutated, RowTable, TableError, Update, Version, Write};
use pcj_term::{Bytes, Items, Memory, TryClone};
use std::alloc::Global;

/// One mutation of one row, for `RowTable::mutate`.
#[derive(Drop)]
pub struct Act {
    /// What has to hold of the row.
    pub conds: Items<Cond>,
    /// What is then done to it, in order.
    pub updates: Items<Update>,
}

impl Act {
    /// Carries the act out on the key's row, by one call of the table.
    pub fn carry_out<T: RowTable>(&self, table: &mut T, key: &[u8]) -> Result<Mutated, TableError>
        ensures done { IfOk result (λ done. CarriesOut (T.rows table.old) key.now self.now done (T.rows table.new)) }
        ensures err { OnErr result (T.rows table.new ≡ T.rows table.old) }
        ensures cause { HasTableCause (T.failures table.old) (T.failures table.new) result }
        ensures calls { T.made table.new ≡ counted (T.made table.old) }
    {
        table.mutate(key, self.conds.as_slice(), self.updates.as_slice())
    }
}

impl TryClone for Act {
    fn try_clone(&self, alloc: Global) -> Result<Act, Memory> {
        Ok(Act {
            conds: self.conds.try_clone(alloc)?,
            updates: self.updates.try_clone(alloc)?,
        })
    }
}

/// Locks the row of a write, where no lock stands and nobody has committed since the start timestamp
/// (Percolator, section 2.2: `Prewrite`).
pub fn prewrite(alloc: Global, write: &Write, start: u64, primary: &[u8]) -> Result<Act, Memory>
    ensures { IfOk result (λ act. act ≡ prewrite_act write.now start primary.now) }
{
    let lock = Lock {
        start,
        primary: Bytes::from_slice(alloc, primary)?,
        value: write.value.try_clone(alloc)?,
    };
    Ok(Act {
        conds: Items::from_vec(vec![in alloc; Cond::NoLock, Cond::NoVersionFrom(start)]?),
        updates: Items::from_vec(vec![in alloc; Update::SetLock(lock)]?),
    })
}

/// Makes the transaction's lock on the row of a write a version (Percolator, section 2.2: `Commit`).
pub fn commit_row(alloc: Global, write: &Write, start: u64, commit: u64) -> Result<Act, Memory>
    ensures { IfOk result (λ act. act ≡ commit_act write.now start commit) }
{
    let version = Version {
        commit,
        start,
        value: write.value.try_clone(alloc)?,
    };
    replace_lock(alloc, version)
}

/// Makes the lock of a committed transaction a version, for whoever meets it (Percolator, section 2.2: a
/// transaction that has passed its commit point is rolled forward).
pub fn roll_forward_row(alloc: Global, lock: &Lock, commit: u64) -> Result<Act, Memory>
    ensures { IfOk result (λ act. act ≡ roll_forward_act lock.now commit) }
{
    let version = Version {
        commit,
        start: lock.start,
        value: lock.value.try_clone(alloc)?,
    };
    replace_lock(alloc, version)
}

/// Takes away the lock of a transaction that isn't committed (Percolator, section 2.2: an abandoned transaction
/// is rolled back).
pub fn roll_back_row(alloc: Global, start: u64) -> Result<Act, Memory>
    ensures { IfOk result (λ act. act ≡ roll_back_act start) }
{
    Ok(Act {
        conds: Items::from_vec(vec![in alloc; Cond::LockIs(start)]?),
        updates: Items::from_vec(vec![in alloc; Update::DropLock]?),
    })
}

/// Puts a version in the place of the lock of its start timestamp.
fn replace_lock(alloc: Global, version: Version) -> Result<Act, Memory>
    ensures { IfOk result (λ act. act ≡ replace_lock_act version) }
{
    Ok(Act {
        conds: Items::from_vec(vec![in alloc; Cond::LockIs(version.start)]?),
        updates: Items::from_vec(vec![in alloc; Update::DropLock, Update::AddVersion(version)]?),
    })
}
