//! How a table keeps its rows in pages: when one is split, when it goes, and what it tells.

use crate::change::Change;
use crate::page_table::in_pages;
use crate::told::{Told, change, count, get, next_is};
use pcj_pages::PageTable;
use std::alloc::Global;
use std::process::Abort;

/// Changes one row.
fn put(rt: &impl Abort, alloc: Global, table: &mut PageTable, number: u16, what: Change) {
    assert!(rt; change(alloc, table, &number.to_be_bytes(), &[], what) == Told::Applied);
}

/// A page has so many rows, of which so many are counted and so many locked, and this newest commit.
fn page_is(rt: &impl Abort, table: &PageTable, at: usize, want: [u64; 4]) {
    let told = match table.page(at) {
        None => [0; 4],
        Some(view) => [view.rows, view.live, view.locks, view.newest],
    };
    assert!(rt; told == want);
}

fn ends_at(rt: &impl Abort, table: &PageTable, pages: usize) {
    assert!(rt; table.page(pages).is_none());
}

/// A page of 64 rows, with the even numbers from 2 to 128 for keys, is split for a row at this key.
fn is_split(rt: &impl Abort, alloc: Global, number: u16, low: u64, high: u64) {
    let mut table = in_pages(alloc);
    for half in 1..=64u16 {
        put(rt, alloc, &mut table, 2 * half, Change::Put(5));
    }
    page_is(rt, &table, 0, [64, 64, 0, 5]);
    ends_at(rt, &table, 1);
    put(rt, alloc, &mut table, number, Change::Lock(3));
    let locked = if low > high { [1, 0] } else { [0, 1] };
    page_is(rt, &table, 0, [low, 32, locked[0], 5]);
    page_is(rt, &table, 1, [high, 32, locked[1], 5]);
    ends_at(rt, &table, 2);
    assert!(rt; get(&mut table, &number.to_be_bytes()) == Told::Row([3, 0, 0, 0]));
    assert!(rt; count(&mut table, b"", &[1]) == Told::Count(64));
}

#[test]
fn a_full_page_is_split(rt: HostRuntime) {
    is_split(&rt, rt.alloc(), 1, 33, 32);
    is_split(&rt, rt.alloc(), 65, 33, 32);
    is_split(&rt, rt.alloc(), 67, 32, 33);
    is_split(&rt, rt.alloc(), 129, 32, 33);
}

#[test]
fn an_emptied_page_goes(rt: HostRuntime) {
    let mut table = in_pages(rt.alloc());
    for number in 0..65 {
        put(&rt, rt.alloc(), &mut table, number, Change::Lock(3));
    }
    page_is(&rt, &table, 0, [32, 0, 32, 0]);
    page_is(&rt, &table, 1, [33, 0, 33, 0]);
    for number in 1..32 {
        put(&rt, rt.alloc(), &mut table, number, Change::Unlock);
    }
    page_is(&rt, &table, 0, [1, 0, 1, 0]);
    put(&rt, rt.alloc(), &mut table, 0, Change::Unlock);
    page_is(&rt, &table, 0, [33, 0, 33, 0]);
    ends_at(&rt, &table, 1);
    for number in 32..65 {
        put(&rt, rt.alloc(), &mut table, number, Change::Unlock);
    }
    ends_at(&rt, &table, 0);
}

/// Whether no row of a page is counted.
fn none_lives(table: &PageTable, at: usize) -> bool {
    match table.page(at) {
        None => true,
        Some(view) => view.live == 0 && view.locks == 0 && view.newest == 9,
    }
}

#[test]
fn deleted_rows_are_seen_before_their_deletion(rt: HostRuntime) {
    let mut table = in_pages(rt.alloc());
    for number in 0..1_000 {
        put(&rt, rt.alloc(), &mut table, number, Change::Put(5));
    }
    for number in 0..1_000 {
        put(&rt, rt.alloc(), &mut table, number, Change::Delete(9));
    }
    for at in 0..1_000 {
        assert!(rt; none_lives(&table, at));
    }
    assert!(rt; next_is(&mut table, b"", &[4], 1 << 48, None));
    assert!(rt; next_is(&mut table, b"", &[4], 8, Some(&[0, 0])));
    assert!(rt; next_is(&mut table, b"", &[4], 5, Some(&[0, 0])));
    assert!(rt; next_is(&mut table, b"", &[4], 4, None));
    assert!(rt; next_is(&mut table, &[1, 0], &[4], 8, Some(&[1, 1])));
}
