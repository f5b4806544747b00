ghost use Rattle.std.specs.Prelude.{◌≡◌, ◌<◌, ◌≤◌, ◌^◌, true, length, IfOk};
ghost use Rattle.std.specs.Option.{option_map};
ghost use Rattle.pcj_table.specs.Table.{row_at, shown, first_row, is_next_at, is_next_lock, is_counted_between, rows_that};
ghost use Rattle.pcj_sorted.specs.Edits.{row_in};
ghost use Rattle.pcj_sorted.specs.Entries.{keys_rise, table_of};
ghost use Rattle.pcj_pages.specs.Pages.{rows_of, AreSized, ArePages};
ghost use Rattle.pcj_pages.specs.Walk.{first_in, count_in};

use crate::page::Page;
use crate::search::{page_of, place_in};
use pcj_sorted::{copied, count_between, next_locked, next_seen, shown};
use pcj_table::{Found, Row};
use pcj_term::Memory;
use std::alloc::Global;

/// A copy of the key's row, where the key has anything.
pub(crate) fn row_of(alloc: Global, pages: &[Page], key: &[u8]) -> Result<Option<Row>, Memory>
    requires { ArePages pages.now }
    ensures { IfOk result (λ row. row ≡ shown (row_at (table_of (rows_of pages.now)) key.now)) }
{
    let at = page_of(pages, key);
    match place_in(pages, at, key) {
        Ok(place) => shown_at(alloc, pages[at].rows(), place),
        Err(_) => Ok(None),
    }
}

/// A copy of the row at a place, where it has anything.
fn shown_at(alloc: Global, rows: &[Found], at: usize) -> Result<Option<Row>, Memory>
    requires { at < length rows.now }
    ensures { IfOk result (λ row. row ≡ shown (row_in rows.now at)) }
{
    shown(alloc, &rows[at].row)
}

/// A copy of the first row between two keys that a walk at this timestamp sees.
pub(crate) fn first_seen(
    alloc: Global,
    pages: &[Page],
    after: &[u8],
    end: &[u8],
    at: u64,
) -> Result<Option<Found>, Memory>
    requires { ArePages pages.now }
    ensures { IfOk result (λ row. row ≡ first_row (is_next_at after.now end.now at) (table_of (rows_of pages.now))) }
{
    let from = page_of(pages, after);
    let found = seen_in(pages.split_at(from).1, after, end, at);
    copied(alloc, found)
}

/// A copy of the first row above a key that has a lock.
pub(crate) fn first_locked(
    alloc: Global,
    pages: &[Page],
    after: &[u8],
) -> Result<Option<Found>, Memory>
    requires { ArePages pages.now }
    ensures { IfOk result (λ row. row ≡ first_row (is_next_lock after.now) (table_of (rows_of pages.now))) }
{
    let from = page_of(pages, after);
    let found = locked_in(pages.split_at(from).1, after);
    copied(alloc, found)
}

/// How many rows from one key on and below another have a put for their newest version, or a plain value.
pub(crate) fn count(pages: &[Page], from: &[u8], end: &[u8]) -> u64
    requires { ArePages pages.now }
    ensures { result ≡ rows_that (is_counted_between from.now end.now) (table_of (rows_of pages.now)) }
{
    let first = page_of(pages, from);
    count_in(pages.split_at(first).1, from, end)
}

/// The first row of these pages. Pages of which no row is seen at the timestamp are passed over.
fn seen_in<'t>(pages: &'t [Page], after: &[u8], end: &[u8], at: u64) -> Option<&'t Found>
    requires rise { keys_rise (rows_of pages.now) ≡ true }
    requires sized { AreSized pages.now }
    ensures { option_map (λ row. row.now) result ≡ first_in (is_next_at after.now end.now at) (rows_of pages.now) }
{
    for page in pages {
        if !page.starts_before(end) {
            return None;
        }
        let found = seen_of(page, after, end, at);
        if found.is_some() {
            return found;
        }
    }
    None
}

/// The first row of one page.
fn seen_of<'t>(page: &'t Page, after: &[u8], end: &[u8], at: u64) -> Option<&'t Found>
    requires { keys_rise page.now ≡ true }
    ensures { option_map (λ row. row.now) result ≡ first_in (is_next_at after.now end.now at) page.now }
{
    if page.summary().is_dead_at(at) {
        return None;
    }
    next_seen(page.rows(), after, end, at)
}

/// The first row of these pages. Pages without locks are passed over.
fn locked_in<'t>(pages: &'t [Page], after: &[u8]) -> Option<&'t Found>
    requires { keys_rise (rows_of pages.now) ≡ true }
    ensures { option_map (λ row. row.now) result ≡ first_in (is_next_lock after.now) (rows_of pages.now) }
{
    for page in pages {
        let found = locked_of(page, after);
        if found.is_some() {
            return found;
        }
    }
    None
}

/// The first row of one page.
fn locked_of<'t>(page: &'t Page, after: &[u8]) -> Option<&'t Found>
    requires { keys_rise page.now ≡ true }
    ensures { option_map (λ row. row.now) result ≡ first_in (is_next_lock after.now) page.now }
{
    if page.summary().locks == 0 {
        return None;
    }
    next_locked(page.rows(), after)
}

/// The rows of these pages. What a page between the two keys knows of its own is added.
fn count_in(pages: &[Page], from: &[u8], end: &[u8]) -> u64
    requires rise { keys_rise (rows_of pages.now) ≡ true }
    requires sized { AreSized pages.now }
    requires few { length pages.now ≤ 2 ^ 57 }
    ensures { result ≡ count_in (is_counted_between from.now end.now) (rows_of pages.now) }
{
    let mut count: u64 = 0;
    for page in pages {
        if !page.starts_before(end) {
            return count;
        }
        count += counted(page, from, end);
    }
    count
}

/// The rows of one page.
fn counted(page: &Page, from: &[u8], end: &[u8]) -> u64
    requires { keys_rise page.now ≡ true }
    ensures { result ≡ count_in (is_counted_between from.now end.now) page.now }
{
    if page.ends_before(end) && !page.starts_before(from) {
        page.summary().live
    } else {
        count_between(page.rows(), from, end) as u64
    }
}
