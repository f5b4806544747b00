//! The cases of a table, over one in pages.

ghost use Rattle.std.specs.Prelude.{IfOk};
ghost use Rattle.pcj_sorted.specs.Entries.{table_of};
ghost use Rattle.pcj_pages.specs.Pages.{rows_of};
ghost use Rattle.pcj_samples.specs.Fresh.{IsFresh};

use crate::failing::fail_on_one;
use crate::told::{Told, get};
use crate::{failing, mutations, notifications, walks};
use pcj_pages::PageTable;
use pcj_term::{Items, Memory};
use std::alloc::Global;

/// A table without rows, none of whose calls fails.
pub(crate) fn in_pages(alloc: Global) -> PageTable
    ensures { IsFresh (table_of (rows_of result.pages)) }
{
    let none = Items::new(alloc);
    PageTable::new(alloc, none)
}

/// A table without rows whose calls of these numbers fail.
pub(crate) fn failing_at(alloc: Global, calls: &[u64]) -> Result<PageTable, Memory>
    ensures { IfOk result (λ table. IsFresh (table_of (rows_of table.pages))) }
{
    Ok(PageTable::new(alloc, Items::from_vec(Vec::from_slice(alloc, calls)?)))
}

#[test]
fn walks_over_pages_go_from_key_to_key(rt: HostRuntime) {
    walks::go_from_key_to_key(&rt, rt.alloc(), &mut in_pages(rt.alloc()));
}

#[test]
fn walks_over_pages_meet_locks_and_count(rt: HostRuntime) {
    walks::meet_locks_and_count(&rt, rt.alloc(), &mut in_pages(rt.alloc()));
}

#[test]
fn walks_over_pages_see_what_was_there(rt: HostRuntime) {
    walks::see_what_was_there(&rt, rt.alloc(), &mut in_pages(rt.alloc()));
}

#[test]
fn mutations_of_pages_guard_plain_values(rt: HostRuntime) {
    mutations::guard_plain_values(&rt, rt.alloc(), &mut in_pages(rt.alloc()));
}

#[test]
fn mutations_of_pages_leave_no_empty_row(rt: HostRuntime) {
    mutations::leave_no_empty_row(&rt, rt.alloc(), &mut in_pages(rt.alloc()));
}

#[test]
fn updates_of_pages_change_alone(rt: HostRuntime) {
    mutations::change_alone(&rt, rt.alloc(), &mut in_pages(rt.alloc()));
}

#[test]
fn locks_in_pages_are_changed_in_pairs(rt: HostRuntime) {
    mutations::change_locks_and_then(&rt, rt.alloc(), &mut in_pages(rt.alloc()));
}

#[test]
fn values_in_pages_are_changed_in_pairs(rt: HostRuntime) {
    mutations::change_values_and_then(&rt, rt.alloc(), &mut in_pages(rt.alloc()));
}

#[test]
fn a_first_call_of_pages_fails(rt: HostRuntime) {
    let Ok(mut table) = failing_at(rt.alloc(), &[1]) else {
        panic!(rt; "no memory");
    };
    failing::fail_on_the_first(&rt, rt.alloc(), &mut table);
    assert!(rt; get(&mut table, b"k") == Told::Row([3, 0, 0, 1]));
}

#[test]
fn later_calls_of_pages_fail(rt: HostRuntime) {
    for call in 2..6 {
        let Ok(mut table) = failing_at(rt.alloc(), &[call]) else {
            panic!(rt; "no memory");
        };
        fail_on_one(&rt, rt.alloc(), &mut table, call as usize);
        assert!(rt; get(&mut table, b"k") == Told::Row([3, 0, 0, 1]));
    }
}

#[test]
fn an_eleventh_call_of_pages_fails(rt: HostRuntime) {
    let Ok(mut table) = failing_at(rt.alloc(), &[11]) else {
        panic!(rt; "no memory");
    };
    fail_on_one(&rt, rt.alloc(), &mut table, 11);
    assert!(rt; get(&mut table, b"k") == Told::Failed);
}

#[test]
fn tasks_over_pages_are_counted_once(rt: HostRuntime) {
    notifications::count_tasks_once(&rt, rt.alloc(), &mut in_pages(rt.alloc()));
}

#[test]
fn locks_over_pages_are_counted(rt: HostRuntime) {
    notifications::count_locks_of_all_rows(&rt, rt.alloc(), &mut in_pages(rt.alloc()));
}

#[test]
fn counts_over_pages_tell_of_faults(rt: HostRuntime) {
    let Ok(mut table) = failing_at(rt.alloc(), &[1, 3]) else {
        panic!(rt; "no memory");
    };
    notifications::tell_of_faults(&rt, rt.alloc(), &mut table);
}
