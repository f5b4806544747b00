//! Scripts over a table in pages, a call of which fails.

use crate::mem_scripts::ENTRY;
use crate::page_table::{failing_at, in_pages};
use crate::{faults, scripts};

#[test]
fn a_fault_of_the_entry_over_pages_ends_the_run(rt: HostRuntime) {
    for call in 1..=ENTRY {
        let Ok(mut table) = failing_at(rt.alloc(), &[call]) else {
            panic!(rt; "no memory");
        };
        faults::end_at_the_entry(&rt, rt.alloc(), &mut table);
    }
}

#[test]
fn a_fault_of_pages_is_told_and_all_goes_on(rt: HostRuntime) {
    for call in 1..=38 {
        let Ok(mut table) = failing_at(rt.alloc(), &[ENTRY + call]) else {
            panic!(rt; "no memory");
        };
        faults::are_told(&rt, rt.alloc(), &mut table, call);
    }
}

#[test]
fn a_run_over_pages_goes_on_where_another_ended(rt: HostRuntime) {
    scripts::go_on_after_a_run(&rt, rt.alloc(), &mut in_pages(rt.alloc()));
}
