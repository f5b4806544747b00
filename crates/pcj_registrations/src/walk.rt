ghost use Rattle.std.specs.Prelude.{◌≡◌, ◌≤◌, ◌+◌, ◌*◌, IfOk, OnOk};
ghost use Rattle.pcj_table.specs.Calls.{HasTableCause};
ghost use Rattle.pcj_table.specs.Table.{row_at};
ghost use Rattle.pcj_fit.specs.Queries.{HasQueries};
ghost use Rattle.pcj_pending.specs.Pending.{IsFit};
ghost use Rattle.pcj_registrations.specs.Registrations.{list_of, rows_met};
ghost use Rattle.pcj_registrations.specs.Reading.{AddsMet, AddsRead};

use crate::Registration;
use crate::reading::read_row;
use crate::standing::{END, is_committed, value_in};
use pcj_encode::{KeyRange, registration_range};
use pcj_table::{Found, RowTable, TableError};
use pcj_term::{Bytes, Items, Memory};
use std::alloc::Global;

/// The registrations of a table that transactions are at work on, in ascending order of their numbers. Nothing is changed.
///
/// It makes two calls of the table at most for each row of a registration that has a lock or a value, and one more. It answers
/// `Failed` where one of them fails, and `Memory` where there is no room for what it reads.
pub fn registrations<T: RowTable>(
    alloc: Global,
    table: &mut T,
) -> Result<Items<Registration>, TableError>
    // Which registrations are found, and that nothing is changed.
    ensures all { IsFit (row_at (T.rows table.old)) → IfOk result (λ found. HasQueries (row_at (T.rows table.old)) (list_of found)) }
    ensures same { T.rows table.new ≡ T.rows table.old }

    // When an error comes, and the calls of the table.
    ensures cause { HasTableCause (T.failures table.old) (T.failures table.new) result }
    ensures calls { T.made table.new ≤ T.made table.old + 2 * rows_met (T.rows table.old) + 1 }
{
    let KeyRange { after, end } = registration_range(alloc)?;
    let mut found = Items::new(alloc);
    let mut last = after;
    while let Some(met) = table.next(last.as_slice(), end.as_slice(), END)? {
        push_met(alloc, table, &met, &mut found)?;
        last = key_of(met);
    }
    Ok(found)
}

/// Adds the registration that stands in a row, if one does.
fn push_met<T: RowTable>(
    alloc: Global,
    table: &mut T,
    met: &Found,
    found: &mut Items<Registration>,
) -> Result<(), TableError>
    ensures added { OnOk result (AddsMet (row_at (T.rows table.old)) met.now.key met.now.row found.old found.new) }
    ensures same { T.rows table.new ≡ T.rows table.old }
    ensures cause { HasTableCause (T.failures table.old) (T.failures table.new) result }
    ensures calls { T.made table.new ≤ T.made table.old + 1 }
{
    let committed = is_committed(table, &met.row)?;
    match value_in(&met.row, committed) {
        None => Ok(()),
        Some(value) => {
            push_read(alloc, met.key.as_slice(), value.as_slice(), found)?;
            Ok(())
        }
    }
}

/// Adds the registration that a row's key and its value say, if they say one.
fn push_read(
    alloc: Global,
    key: &[u8],
    value: &[u8],
    found: &mut Items<Registration>,
) -> Result<(), Memory>
    ensures { OnOk result (AddsRead key.now value.now found.old found.new) }
{
    match read_row(alloc, key, value)? {
        None => Ok(()),
        Some(registration) => found.push(registration),
    }
}

/// The key of the row that was met.
fn key_of(met: Found) -> Bytes
    ensures { result ≡ met.key }
{
    let Found { key, row: _row } = met;
    key
}
