ghost use Rattle.std.specs.Prelude.{◌≡◌, true, filter, length, is_some, IfOk};
ghost use Rattle.std.specs.List.{find};
ghost use Rattle.std.specs.Option.{option_map};
ghost use Rattle.pcj_table.specs.Row.{is_seen_at, is_counted};
ghost use Rattle.pcj_table.specs.Table.{first_row, is_next_at, is_next_lock, is_counted_between, rows_that};
ghost use Rattle.pcj_sorted.specs.Entries.{keys_rise, table_of};

use crate::range::{rows_above, rows_below, rows_from};
use pcj_table::Found;
use pcj_term::{Memory, TryClone};
use std::alloc::Global;

/// The first row between two keys that a walk at this timestamp sees.
pub fn next_seen<'t>(rows: &'t [Found], after: &[u8], end: &[u8], at: u64) -> Option<&'t Found>
    requires { keys_rise rows.now ≡ true }
    ensures { option_map (λ row. row.now) result ≡ first_row (is_next_at after.now end.now at) (table_of rows.now) }
{
    first_seen(rows_below(rows_above(rows, after), end), at)
}

/// The first row above a key that has a lock.
pub fn next_locked<'t>(rows: &'t [Found], after: &[u8]) -> Option<&'t Found>
    requires { keys_rise rows.now ≡ true }
    ensures { option_map (λ row. row.now) result ≡ first_row (is_next_lock after.now) (table_of rows.now) }
{
    first_locked(rows_above(rows, after))
}

/// A copy of a row, where there is one.
pub fn copied(alloc: Global, found: Option<&Found>) -> Result<Option<Found>, Memory>
    ensures { IfOk result (λ copy. copy ≡ option_map (λ row. row.now) found.entry) }
{
    match found {
        Some(found) => Ok(Some(found.try_clone(alloc)?)),
        None => Ok(None),
    }
}

/// How many rows from one key on and below another have a put for their newest version, or a plain value.
pub fn count_between(rows: &[Found], first: &[u8], end: &[u8]) -> usize
    requires { keys_rise rows.now ≡ true }
    ensures { result ≡ rows_that (is_counted_between first.now end.now) (table_of rows.now) }
{
    count(rows_below(rows_from(rows, first), end))
}

fn first_seen(rows: &[Found], at: u64) -> Option<&Found>
    ensures { option_map (λ row. row.now) result ≡ find (λ row. is_seen_at at row.row) rows.now }
{
    for row in rows {
        if row.row.is_seen_at(at) {
            return Some(row);
        }
    }
    None
}

fn first_locked(rows: &[Found]) -> Option<&Found>
    ensures { option_map (λ row. row.now) result ≡ find (λ row. is_some row.row.lock) rows.now }
{
    for row in rows {
        if row.row.lock.is_some() {
            return Some(row);
        }
    }
    None
}

fn count(rows: &[Found]) -> usize
    ensures { result ≡ length (filter (λ row. is_counted row.row) rows.now) }
{
    let mut count: usize = 0;
    for row in rows {
        if row.row.is_counted() {
            count += 1;
        }
    }
    count
}
