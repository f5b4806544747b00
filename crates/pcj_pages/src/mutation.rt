ghost use Rattle.std.specs.Prelude.{◌≡◌, ◌<◌, ◌≤◌, ◌+◌, ◌^◌, true, [], ◌∷◌, length, IsOk, IfOk, OnOk, OnErr};
ghost use Rattle.std.specs.List.{insert};
ghost use Rattle.pcj_table.specs.Row.{no_row, conds_hold};
ghost use Rattle.pcj_table.specs.Table.{Mutates, row_at};
ghost use Rattle.pcj_table.specs.declared.update.Update.TheVariants.{DropLock};
ghost use Rattle.pcj_sorted.specs.Edits.{row_in, with_new_row, Changes, Creates};
ghost use Rattle.pcj_sorted.specs.Entries.{table_of};
ghost use Rattle.pcj_pages.specs.Pages.{rows_of, AreSized, ArePages};
ghost use Rattle.pcj_pages.specs.Search.{page_rows, rows_before, split_at, without_empty};

use crate::page::Page;
use crate::search::{page_of, place_in};
use pcj_sorted::RowChange;
use pcj_table::{Cond, Found, Mutated, Row, Update};
use pcj_term::{Bytes, Memory};
use std::alloc::Global;

/// The most rows of a page.
const MOST_ROWS: usize = 64;

/// How many rows stay in a page that is split.
const HALF: usize = 32;

/// The most pages, so that all their rows are fewer than 2^64. No machine has memory for so many.
const MOST_PAGES: usize = 1 << 57;

/// Carries out the updates on the key's row, where all the conditions hold of it. After `Memory` the rows are as
/// they were.
pub(crate) fn mutate(
    alloc: Global,
    pages: &mut Vec<Page>,
    key: &[u8],
    conds: &[Cond],
    updates: &[Update],
) -> Result<Mutated, Memory>
    requires { ArePages pages.old.items }
    ensures done { IfOk result (λ done. Mutates (table_of (rows_of pages.old.items)) key.now conds.now updates.now done (table_of (rows_of pages.new.items))) }
    ensures err { OnErr result (rows_of pages.new.items ≡ rows_of pages.old.items) }
    ensures pages { ArePages pages.new.items }
    ensures drops { updates.now ≡ DropLock ∷ [] → conds_hold (row_at (table_of (rows_of pages.old.items)) key.now) conds.now ≡ true → IsOk result }
{
    let at = page_of(pages, key);
    match place_in(pages, at, key) {
        Ok(place) => change_row(alloc, pages, at, place, conds, updates),
        Err(place) => create_row(alloc, pages, at, place, key, conds, updates),
    }
}

/// A mutation of the row that stands at the place of a page, which goes where no row is left in it.
fn change_row(
    alloc: Global,
    pages: &mut Vec<Page>,
    at: usize,
    place: usize,
    conds: &[Cond],
    updates: &[Update],
) -> Result<Mutated, Memory>
    requires page { at < length pages.old.items }
    requires place { place < length (page_rows pages.old.items at) }
    requires sized { AreSized pages.old.items }
    ensures done { IfOk result (λ done. Changes (rows_of pages.old.items) (rows_before pages.old.items at + place) conds.now updates.now done (rows_of pages.new.items)) }
    ensures err { OnErr result (rows_of pages.new.items ≡ rows_of pages.old.items) }
    ensures sized { AreSized pages.new.items }
    ensures few { length pages.new.items ≤ length pages.old.items }
    ensures drops { updates.now ≡ DropLock ∷ [] → conds_hold (row_in (rows_of pages.old.items) (rows_before pages.old.items at + place)) conds.now ≡ true → IsOk result }
{
    let done = pages[at].change(alloc, place, conds, updates)?;
    drop_empty(pages, at);
    Ok(done)
}

/// Takes a page away where it has no row.
fn drop_empty(pages: &mut Vec<Page>, at: usize)
    requires { at < length pages.old.items }
    ensures { pages.new.items ≡ without_empty pages.old.items at }
{
    if pages[at].rows().is_empty() {
        pages.remove(at);
    }
}

/// A mutation of a row that isn't there, and goes to the place of a page.
fn create_row(
    alloc: Global,
    pages: &mut Vec<Page>,
    at: usize,
    place: usize,
    key: &[u8],
    conds: &[Cond],
    updates: &[Update],
) -> Result<Mutated, Memory>
    requires page { 0 < length pages.old.items → at < length pages.old.items }
    requires place { place ≤ length (page_rows pages.old.items at) }
    requires sized { AreSized pages.old.items }
    requires few { length pages.old.items ≤ 2 ^ 57 }
    ensures done { IfOk result (λ done. Creates (rows_of pages.old.items) (rows_before pages.old.items at + place) key.now conds.now updates.now done (rows_of pages.new.items)) }
    ensures err { OnErr result (rows_of pages.new.items ≡ rows_of pages.old.items) }
    ensures sized { AreSized pages.new.items }
    ensures few { length pages.new.items ≤ 2 ^ 57 }
    ensures drops { updates.now ≡ DropLock ∷ [] → conds_hold no_row conds.now ≡ true → IsOk result }
{
    match RowChange::of(alloc, &Row::new(alloc), conds, updates)? {
        RowChange::Rejected(row) => Ok(Mutated::Rejected(row)),
        RowChange::DropsLock => Ok(Mutated::Applied),
        RowChange::Becomes(row) => {
            add_row(alloc, pages, at, place, key, row)?;
            Ok(Mutated::Applied)
        }
    }
}

/// Adds a row at the place of a page where its key goes, unless it has nothing.
fn add_row(
    alloc: Global,
    pages: &mut Vec<Page>,
    at: usize,
    place: usize,
    key: &[u8],
    row: Row,
) -> Result<(), Memory>
    requires page { 0 < length pages.old.items → at < length pages.old.items }
    requires place { place ≤ length (page_rows pages.old.items at) }
    requires sized { AreSized pages.old.items }
    requires few { length pages.old.items ≤ 2 ^ 57 }
    ensures ok { OnOk result (rows_of pages.new.items ≡ with_new_row (rows_of pages.old.items) (rows_before pages.old.items at + place) key.now row) }
    ensures err { OnErr result (rows_of pages.new.items ≡ rows_of pages.old.items) }
    ensures sized { AreSized pages.new.items }
    ensures few { length pages.new.items ≤ 2 ^ 57 }
{
    if row.has_nothing() {
        return Ok(());
    }
    let key = Bytes::from_slice(alloc, key)?;
    put_in(alloc, pages, at, place, Found { key, row })
}

/// Puts a row in at the place of a page, which is split where it is full.
fn put_in(
    alloc: Global,
    pages: &mut Vec<Page>,
    at: usize,
    place: usize,
    found: Found,
) -> Result<(), Memory>
    requires page { 0 < length pages.old.items → at < length pages.old.items }
    requires place { place ≤ length (page_rows pages.old.items at) }
    requires sized { AreSized pages.old.items }
    requires few { length pages.old.items ≤ 2 ^ 57 }
    ensures ok { OnOk result (rows_of pages.new.items ≡ insert (rows_of pages.old.items) (rows_before pages.old.items at + place) found) }
    ensures err { OnErr result (rows_of pages.new.items ≡ rows_of pages.old.items) }
    ensures sized { AreSized pages.new.items }
    ensures few { length pages.new.items ≤ 2 ^ 57 }
{
    if pages.is_empty() {
        return add_first_page(alloc, pages, found);
    }
    if pages[at].rows().len() < MOST_ROWS {
        return insert_at(pages, at, place, found);
    }
    split(alloc, pages, at)?;
    if place <= HALF {
        insert_at(pages, at, place, found)
    } else {
        insert_at(pages, at + 1, place - HALF, found)
    }
}

/// Puts a row in at the place of a page that isn't full. After `Memory` the pages are as they were.
fn insert_at(pages: &mut Vec<Page>, at: usize, place: usize, found: Found) -> Result<(), Memory>
    requires page { at < length pages.old.items }
    requires place { place ≤ length (page_rows pages.old.items at) }
    requires room { length (page_rows pages.old.items at) < 64 }
    requires sized { AreSized pages.old.items }
    ensures ok { OnOk result (rows_of pages.new.items ≡ insert (rows_of pages.old.items) (rows_before pages.old.items at + place) found) }
    ensures err { OnErr result (pages.new.items ≡ pages.old.items) }
    ensures sized { AreSized pages.new.items }
    ensures few { length pages.new.items ≡ length pages.old.items }
{
    pages[at].insert(place, found)
}

/// Makes the first page, of one row.
fn add_first_page(alloc: Global, pages: &mut Vec<Page>, found: Found) -> Result<(), Memory>
    requires { pages.old.items ≡ [] }
    ensures ok { OnOk result (pages.new.items ≡ (found ∷ []) ∷ []) }
    ensures err { OnErr result (pages.new.items ≡ pages.old.items) }
{
    let mut rows = Vec::new(alloc);
    rows.push(found)?;
    pages.push(Page::new(alloc, rows)?)?;
    Ok(())
}

/// Splits a full page in two. After `Memory` the pages are as they were.
fn split(alloc: Global, pages: &mut Vec<Page>, at: usize) -> Result<(), Memory>
    requires page { at < length pages.old.items }
    requires full { 32 ≤ length (page_rows pages.old.items at) }
    requires few { length pages.old.items ≤ 2 ^ 57 }
    ensures ok { OnOk result (pages.new.items ≡ split_at pages.old.items at 32) }
    ensures few { length pages.new.items ≤ 2 ^ 57 }
    ensures err { OnErr result (pages.new.items ≡ pages.old.items) }
{
    if pages.len() >= MOST_PAGES {
        return Err(Memory);
    }
    pages.reserve(1)?;
    let upper = pages[at].split_off(alloc, HALF)?;
    pages.insert(at + 1, upper)?;
    Ok(())
}
