ghost use Rattle.std.specs.Prelude.{◌≡◌, true, [], ◌∷◌, Ok, IfOk};
ghost use Rattle.pcj_table.specs.Row.{conds_hold, updated_all};
ghost use Rattle.pcj_table.specs.declared.update.Update.TheVariants.{DropLock};
ghost use Rattle.pcj_sorted.specs.declared.row_change.RowChange.TheVariants.{DropsLock};
ghost use Rattle.pcj_sorted.specs.Edits.{IsChange};
ghost use Rattle.pcj_sorted.specs.Entries.{only_drops_lock};

use pcj_table::{Cond, Row, Update};
use pcj_term::{Memory, TryClone};
use std::alloc::Global;

/// What a mutation makes of a row.
#[derive(Drop)]
pub enum RowChange {
    /// A condition is false. A copy of the row as it stands.
    Rejected(Row),
    /// The one update drops the lock, which is done in place.
    DropsLock,
    /// The row as it is to be.
    Becomes(Row),
}

impl RowChange {
    /// What the updates make of the row, where all the conditions hold of it. Takes no memory for `DropsLock`.
    pub fn of(
        alloc: Global,
        row: &Row,
        conds: &[Cond],
        updates: &[Update],
    ) -> Result<RowChange, Memory>
        ensures change { IfOk result (λ change. IsChange row.now conds.now updates.now change) }
        ensures drops { updates.now ≡ DropLock ∷ [] → conds_hold row.now conds.now ≡ true → result ≡ Ok DropsLock }
    {
        if !row.satisfies(conds) {
            return Ok(RowChange::Rejected(row.try_clone(alloc)?));
        }
        if only_drops_lock(updates) {
            return Ok(RowChange::DropsLock);
        }
        let copy = row.try_clone(alloc)?;
        Ok(RowChange::Becomes(updated(alloc, copy, updates)?))
    }
}

/// Whether the only update is `DropLock`.
fn only_drops_lock(updates: &[Update]) -> bool
    ensures { result ≡ only_drops_lock updates.now }
{
    matches!(updates, [Update::DropLock])
}

/// The row with copies of the updates carried out on it in order.
fn updated(alloc: Global, row: Row, updates: &[Update]) -> Result<Row, Memory>
    ensures { IfOk result (λ new. new ≡ updated_all row updates.now) }
{
    let mut new = row;
    for update in updates {
        new.update(update.try_clone(alloc)?)?;
    }
    Ok(new)
}
