ghost use Rattle.std.specs.Prelude.{◌≡◌, ◌≤◌, ◌<◌, ◌+◌, ◌^◌, nat_lt, [], IfOk};
ghost use Rattle.std.specs.FinMap as map;
ghost use Rattle.std.specs.Option.{option_map};
ghost use Rattle.pcj_table.specs.Calls.{HasTableCause, counted};
ghost use Rattle.pcj_table.specs.Table.{first_row, is_next_at, is_next_lock, rows_that};

use pcj_table::{Found, RowTable, TableError};
use pcj_term::Bytes;
use std::alloc::Global;

/// How many rows above one key and below another are seen at a time.
pub(crate) fn count_seen<T: RowTable>(
    table: &mut T,
    after: Bytes,
    end: &[u8],
    at: u64,
) -> Result<u64, TableError>
    ensures count { IfOk result (λ count. count ≡ rows_that (is_next_at after end.now at) (T.rows table.old)) }
    ensures same { T.rows table.new ≡ T.rows table.old }
    ensures cause { HasTableCause (T.failures table.old) (T.failures table.new) result }
    ensures calls { T.made table.new ≤ T.made table.old + rows_that (is_next_at after end.now at) (T.rows table.old) + 1 }
{
    rows_can_be_counted(table);
    let mut last = after;
    let mut seen: u64 = 0;
    while let Some(key) = next_seen(table, last.as_slice(), end, at)? {
        last = key;
        seen += 1;
    }
    Ok(seen)
}

/// Whether any row above one key and below another is seen at a time.
pub(crate) fn is_any_seen<T: RowTable>(
    table: &mut T,
    after: &[u8],
    end: &[u8],
    at: u64,
) -> Result<bool, TableError>
    ensures some { IfOk result (λ some. some ≡ nat_lt 0 (rows_that (is_next_at after.now end.now at) (T.rows table.old))) }
    ensures same { T.rows table.new ≡ T.rows table.old }
    ensures cause { HasTableCause (T.failures table.old) (T.failures table.new) result }
    ensures calls { T.made table.new ≤ T.made table.old + 1 }
{
    Ok(next_seen(table, after, end, at)?.is_some())
}

/// How many rows have a lock, but for that of the empty key.
pub(crate) fn count_locked<T: RowTable>(alloc: Global, table: &mut T) -> Result<u64, TableError>
    ensures count { IfOk result (λ count. count ≡ rows_that (is_next_lock []) (T.rows table.old)) }
    ensures same { T.rows table.new ≡ T.rows table.old }
    ensures cause { HasTableCause (T.failures table.old) (T.failures table.new) result }
    ensures calls { T.made table.new ≤ T.made table.old + rows_that (is_next_lock []) (T.rows table.old) + 1 }
{
    rows_can_be_counted(table);
    let mut last = Bytes::new(alloc);
    let mut locked: u64 = 0;
    while let Some(key) = next_locked(table, last.as_slice())? {
        last = key;
        locked += 1;
    }
    Ok(locked)
}

/// A table has fewer rows than a count can say.
fn rows_can_be_counted<T: RowTable>(table: &T)
    ensures { map.len (T.rows table.now) < 2 ^ 64 }
{
    table.calls();
}

/// The key of the next row that is seen.
fn next_seen<T: RowTable>(
    table: &mut T,
    last: &[u8],
    end: &[u8],
    at: u64,
) -> Result<Option<Bytes>, TableError>
    ensures key { IfOk result (λ key. key ≡ option_map (λ found. found.key) (first_row (is_next_at last.now end.now at) (T.rows table.old))) }
    ensures same { T.rows table.new ≡ T.rows table.old }
    ensures cause { HasTableCause (T.failures table.old) (T.failures table.new) result }
    ensures calls { T.made table.new ≡ counted (T.made table.old) }
{
    Ok(key_of(table.next(last, end, at)?))
}

/// The key of the next row that has a lock.
fn next_locked<T: RowTable>(table: &mut T, last: &[u8]) -> Result<Option<Bytes>, TableError>
    ensures key { IfOk result (λ key. key ≡ option_map (λ found. found.key) (first_row (is_next_lock last.now) (T.rows table.old))) }
    ensures same { T.rows table.new ≡ T.rows table.old }
    ensures cause { HasTableCause (T.failures table.old) (T.failures table.new) result }
    ensures calls { T.made table.new ≡ counted (T.made table.old) }
{
    Ok(key_of(table.next_lock(last)?))
}

fn key_of(found: Option<Found>) -> Option<Bytes>
    ensures { result ≡ option_map (λ found. found.key) found }
{
    match found {
        None => None,
        Some(Found { key, row: _row }) => Some(key),
    }
}
