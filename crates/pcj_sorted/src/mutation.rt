ghost use Rattle.std.specs.Prelude.{◌≡◌, ◌<◌, ◌≤◌, true, [], ◌∷◌, length, IsOk, IfOk, OnOk, OnErr};
ghost use Rattle.pcj_table.specs.Row.{no_row, conds_hold, updated};
ghost use Rattle.pcj_table.specs.Table.{Mutates, row_at};
ghost use Rattle.pcj_table.specs.declared.update.Update.TheVariants.{DropLock};
ghost use Rattle.pcj_sorted.specs.Edits.{row_in, with_row_at, with_new_row, Changes, Creates};
ghost use Rattle.pcj_sorted.specs.Entries.{keys_rise, table_of};

use crate::place::place_of;
use crate::row_change::RowChange;
use pcj_table::{Cond, Found, Mutated, Row, Update};
use pcj_term::{Bytes, Memory};
use std::alloc::Global;

/// Carries out the updates on the key's row, where all the conditions hold of it. After `Memory` the rows are
/// as they were.
pub fn mutate(
    alloc: Global,
    rows: &mut Vec<Found>,
    key: &[u8],
    conds: &[Cond],
    updates: &[Update],
) -> Result<Mutated, Memory>
    requires { keys_rise rows.old.items ≡ true }
    ensures done { IfOk result (λ done. Mutates (table_of rows.old.items) key.now conds.now updates.now done (table_of rows.new.items)) }
    ensures err { OnErr result (rows.new.items ≡ rows.old.items) }
    ensures sorted { keys_rise rows.new.items ≡ true }
    ensures drops { updates.now ≡ DropLock ∷ [] → conds_hold (row_at (table_of rows.old.items) key.now) conds.now ≡ true → IsOk result }
{
    match place_of(rows, key) {
        Ok(at) => change(alloc, rows, at, conds, updates),
        Err(at) => create(alloc, rows, at, key, conds, updates),
    }
}

/// A mutation of the row that stands at the place. After `Memory` the rows are as they were.
pub fn change(
    alloc: Global,
    rows: &mut Vec<Found>,
    at: usize,
    conds: &[Cond],
    updates: &[Update],
) -> Result<Mutated, Memory>
    requires { at < length rows.old.items }
    ensures done { IfOk result (λ done. Changes rows.old.items at conds.now updates.now done rows.new.items) }
    ensures err { OnErr result (rows.new.items ≡ rows.old.items) }
    ensures drops { updates.now ≡ DropLock ∷ [] → conds_hold (row_in rows.old.items at) conds.now ≡ true → IsOk result }
{
    match RowChange::of(alloc, &rows[at].row, conds, updates)? {
        RowChange::Rejected(row) => Ok(Mutated::Rejected(row)),
        RowChange::DropsLock => {
            drop_lock(rows, at);
            Ok(Mutated::Applied)
        }
        RowChange::Becomes(row) => {
            put_row(rows, at, row);
            Ok(Mutated::Applied)
        }
    }
}

/// A mutation of a row that isn't there, and goes to the place.
fn create(
    alloc: Global,
    rows: &mut Vec<Found>,
    at: usize,
    key: &[u8],
    conds: &[Cond],
    updates: &[Update],
) -> Result<Mutated, Memory>
    requires { at ≤ length rows.old.items }
    ensures done { IfOk result (λ done. Creates rows.old.items at key.now conds.now updates.now done rows.new.items) }
    ensures err { OnErr result (rows.new.items ≡ rows.old.items) }
    ensures drops { updates.now ≡ DropLock ∷ [] → conds_hold no_row conds.now ≡ true → IsOk result }
{
    match RowChange::of(alloc, &Row::new(alloc), conds, updates)? {
        RowChange::Rejected(row) => Ok(Mutated::Rejected(row)),
        RowChange::DropsLock => Ok(Mutated::Applied),
        RowChange::Becomes(row) => {
            add_row(alloc, rows, at, key, row)?;
            Ok(Mutated::Applied)
        }
    }
}

/// Puts a row in the place of the one that stands there, or takes that away where the row has nothing.
fn put_row(rows: &mut Vec<Found>, at: usize, row: Row)
    requires { at < length rows.old.items }
    ensures { rows.new.items ≡ with_row_at rows.old.items at row }
{
    if row.has_nothing() {
        rows.remove(at);
    } else {
        rows[at].row = row;
    }
}

/// Takes the lock away from the row that stands there, and the row where it then has nothing. Takes no memory.
fn drop_lock(rows: &mut Vec<Found>, at: usize)
    requires { at < length rows.old.items }
    ensures { rows.new.items ≡ with_row_at rows.old.items at (updated (row_in rows.old.items at) DropLock) }
{
    if rows[at].row.has_nothing_but_a_lock() {
        rows.remove(at);
    } else {
        rows[at].row.lock = None;
    }
}

/// Adds a row at the place where its key goes, unless it has nothing.
fn add_row(
    alloc: Global,
    rows: &mut Vec<Found>,
    at: usize,
    key: &[u8],
    row: Row,
) -> Result<(), Memory>
    requires { at ≤ length rows.old.items }
    ensures ok { OnOk result (rows.new.items ≡ with_new_row rows.old.items at key.now row) }
    ensures err { OnErr result (rows.new.items ≡ rows.old.items) }
{
    if row.has_nothing() {
        return Ok(());
    }
    let key = Bytes::from_slice(alloc, key)?;
    rows.insert(at, Found { key, row })?;
    Ok(())
}
