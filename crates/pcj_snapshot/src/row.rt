ghost use Rattle.std.specs.Prelude.{◌≡◌, IfOk};
ghost use Rattle.std.specs.Option.{option_copied, option_map};
ghost use Rattle.pcj_table.specs.Calls.{HasTableCause, counted};
ghost use Rattle.pcj_table.specs.Table.{row_at, first_row, is_next_at};
ghost use Rattle.pcj_snapshot.specs.Reads.{put_at, row_event, found_event};

use crate::ReadEvent;
use pcj_encode::KeyRange;
use pcj_mvcc::{lock_at, version_at};
use pcj_table::{Found, Pair, Row, RowTable, TableError};
use pcj_term::{Bytes, Memory, TryClone};
use std::alloc::Global;

/// Reads the row of a key.
pub(crate) fn read_get<T: RowTable>(
    alloc: Global,
    table: &mut T,
    key: &Bytes,
    at: u64,
) -> Result<ReadEvent, TableError>
    ensures told { IfOk result (λ event. event ≡ row_event at key.now (row_at (T.rows table.old) key.now)) }
    ensures same { T.rows table.new ≡ T.rows table.old }
    ensures cause { HasTableCause (T.failures table.old) (T.failures table.new) result }
    ensures calls { T.made table.new ≡ counted (T.made table.old) }
{
    match table.get(key.as_slice())? {
        None => Ok(ReadEvent::Nothing),
        Some(row) => Ok(read_row(alloc, key.try_clone(alloc)?, &row, at)?),
    }
}

/// Reads the first row of a range in which something is seen.
pub(crate) fn read_next<T: RowTable>(
    alloc: Global,
    table: &mut T,
    range: &KeyRange,
    at: u64,
) -> Result<ReadEvent, TableError>
    ensures told { IfOk result (λ event. event ≡ found_event at (first_row (is_next_at range.now.after range.now.end at) (T.rows table.old))) }
    ensures same { T.rows table.new ≡ T.rows table.old }
    ensures cause { HasTableCause (T.failures table.old) (T.failures table.new) result }
    ensures calls { T.made table.new ≡ counted (T.made table.old) }
{
    match table.next(range.after.as_slice(), range.end.as_slice(), at)? {
        None => Ok(ReadEvent::Nothing),
        Some(Found { key, row }) => Ok(read_row(alloc, key, &row, at)?),
    }
}

/// What a read at a timestamp says of a row.
fn read_row(alloc: Global, key: Bytes, row: &Row, at: u64) -> Result<ReadEvent, Memory>
    ensures { IfOk result (λ event. event ≡ row_event at key row.now) }
{
    if let Some(lock) = lock_at(row, at) {
        let lock = lock.try_clone(alloc)?;
        return Ok(ReadEvent::MetLock { key, lock });
    }
    match value_at(row, at) {
        None => Ok(ReadEvent::Nothing),
        Some(value) => {
            let value = value.try_clone(alloc)?;
            Ok(ReadEvent::Found(Pair { key, value }))
        }
    }
}

/// The value of the newest version up to a timestamp, unless that is a deletion.
fn value_at(row: &Row, at: u64) -> Option<&Bytes>
    ensures { option_copied result ≡ option_map (λ put. put.0) (put_at at row.now) }
{
    match version_at(row, at) {
        None => None,
        Some(version) => version.value.as_ref(),
    }
}
