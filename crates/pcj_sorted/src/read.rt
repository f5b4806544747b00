ghost use Rattle.std.specs.Prelude.{◌≡◌, true, IfOk};
ghost use Rattle.pcj_table.specs.Table.{row_at, shown};
ghost use Rattle.pcj_sorted.specs.Entries.{keys_rise, table_of};

use crate::place::place_of;
use pcj_table::{Found, Row};
use pcj_term::{Memory, TryClone};
use std::alloc::Global;

/// A copy of the key's row, where the key has anything.
pub fn row_of(alloc: Global, rows: &[Found], key: &[u8]) -> Result<Option<Row>, Memory>
    requires { keys_rise rows.now ≡ true }
    ensures { IfOk result (λ row. row ≡ shown (row_at (table_of rows.now) key.now)) }
{
    match place_of(rows, key) {
        Ok(at) => shown(alloc, &rows[at].row),
        Err(_) => Ok(None),
    }
}

/// A copy of a row as a read gives it: none where the row has nothing.
pub fn shown(alloc: Global, row: &Row) -> Result<Option<Row>, Memory>
    ensures { IfOk result (λ copy. copy ≡ shown row.now) }
{
    if row.has_nothing() {
        return Ok(None);
    }
    Ok(Some(row.try_clone(alloc)?))
}
