use crate::change::Change;
use pcj_table::{Cond, Found, Mutated, Row, RowTable, Update, Version};
use std::alloc::Global;

/// What one call of a table tells, as plain data.
#[derive(Clone, Copy, PartialEq, Eq)]
pub(crate) enum Told {
    /// It failed, or there was no memory.
    Failed,
    /// There is no such row.
    Absent,
    /// A row: the start of its lock, the commits of its first two versions and the number of its plain value, or 0 each.
    Row([u64; 4]),
    /// The updates were carried out.
    Applied,
    /// A condition was false of this row.
    Rejected([u64; 4]),
    /// So many rows.
    Count(u64),
}

/// The start of the lock, the commits of the first two versions and the number of the plain value, or 0 each.
pub(crate) fn numbers(row: &Row) -> [u64; 4] {
    [
        row.lock.as_ref().map_or(0, |lock| lock.start),
        commit_of(row.versions.get(0)),
        commit_of(row.versions.get(1)),
        row.plain.as_ref().map_or(0, |plain| plain.seq),
    ]
}

fn commit_of(version: Option<&Version>) -> u64 {
    match version {
        None => 0,
        Some(version) => version.commit,
    }
}

/// The row of a key.
pub(crate) fn get<T: RowTable>(table: &mut T, key: &[u8]) -> Told {
    match table.get(key) {
        Ok(None) => Told::Absent,
        Ok(Some(row)) => Told::Row(numbers(&row)),
        Err(_) => Told::Failed,
    }
}

/// How many rows are counted.
pub(crate) fn count<T: RowTable>(table: &mut T, from: &[u8], end: &[u8]) -> Told {
    match table.count(from, end) {
        Ok(rows) => Told::Count(rows),
        Err(_) => Told::Failed,
    }
}

/// What becomes of one mutation.
fn mutate<T: RowTable>(table: &mut T, key: &[u8], conds: &[Cond], updates: &[Update]) -> Told {
    match table.mutate(key, conds, updates) {
        Ok(Mutated::Applied) => Told::Applied,
        Ok(Mutated::Rejected(row)) => Told::Rejected(numbers(&row)),
        Err(_) => Told::Failed,
    }
}

/// What becomes of a mutation without updates.
pub(crate) fn ask<T: RowTable>(table: &mut T, key: &[u8], conds: &[Cond]) -> Told {
    mutate(table, key, conds, &[])
}

/// What becomes of a mutation by one update.
pub(crate) fn change<T: RowTable>(
    alloc: Global,
    table: &mut T,
    key: &[u8],
    conds: &[Cond],
    change: Change,
) -> Told {
    match change.update(alloc) {
        Ok(update) => mutate(table, key, conds, &[update]),
        Err(_) => Told::Failed,
    }
}

/// What becomes of a mutation by two updates, without conditions.
pub(crate) fn change_both<T: RowTable>(
    alloc: Global,
    table: &mut T,
    key: &[u8],
    first: Change,
    second: Change,
) -> Told {
    let Ok(first) = first.update(alloc) else {
        return Told::Failed;
    };
    match second.update(alloc) {
        Ok(second) => mutate(table, key, &[], &[first, second]),
        Err(_) => Told::Failed,
    }
}

/// Whether the next row that is seen after a key has this one, or there is none.
pub(crate) fn next_is<T: RowTable>(
    table: &mut T,
    after: &[u8],
    end: &[u8],
    at: u64,
    want: Option<&[u8]>,
) -> bool {
    match table.next(after, end, at) {
        Ok(found) => has_key(&found, want),
        Err(_) => false,
    }
}

/// Whether the next row that is locked after a key has this one, or there is none.
pub(crate) fn next_lock_is<T: RowTable>(table: &mut T, after: &[u8], want: Option<&[u8]>) -> bool {
    match table.next_lock(after) {
        Ok(found) => has_key(&found, want),
        Err(_) => false,
    }
}

fn has_key(found: &Option<Found>, want: Option<&[u8]>) -> bool {
    match (found, want) {
        (None, None) => true,
        (Some(found), Some(key)) => found.key.as_slice() == key,
        _ => false,
    }
}

/// How many faults the table has had, and how many calls were made.
pub(crate) fn counts<T: RowTable>(table: &T) -> (u64, u64) {
    (table.faults(), table.calls())
}
