//! Oracles over a table in memory.

use crate::clock::set_first;
use crate::mem_table::{failing_at, in_memory};
use crate::oracles::{
    Drawn, LAST, draw_three, go_on_after_a_crash, grant_the_last_once, take_turns,
};
use pcj_oracle::OracleError;
use std::alloc::Global;
use std::process::Abort;

fn crash(rt: &impl Abort, alloc: Global, draws: usize, last: u64, next: u64) {
    go_on_after_a_crash(rt, alloc, &mut in_memory(alloc), draws, last, next);
}

#[test]
fn numbers_go_on_after_a_crash(rt: HostRuntime) {
    crash(&rt, rt.alloc(), 0, 0, 1);
    crash(&rt, rt.alloc(), 1, 1, 1_001);
    crash(&rt, rt.alloc(), 999, 999, 1_001);
    crash(&rt, rt.alloc(), 1_000, 1_000, 1_001);
    crash(&rt, rt.alloc(), 1_001, 1_001, 2_001);
    crash(&rt, rt.alloc(), 2_000, 2_000, 2_001);
}

#[test]
fn the_last_number_is_granted_once(rt: HostRuntime) {
    let mut table = in_memory(rt.alloc());
    let Ok(()) = set_first(rt.alloc(), &mut table, LAST) else {
        panic!(rt; "the clock isn't set");
    };
    grant_the_last_once(&rt, rt.alloc(), &mut table);
}

#[test]
fn two_oracles_take_turns_after_crashes(rt: HostRuntime) {
    take_turns(&rt, rt.alloc(), &mut in_memory(rt.alloc()));
}

fn draws(rt: &impl Abort, alloc: Global, failing: &[u64], want: [Drawn; 3], calls: u64) {
    let Ok(mut table) = failing_at(alloc, failing) else {
        panic!(rt; "no memory");
    };
    draw_three(rt, alloc, &mut table, want, calls);
}

#[test]
fn a_failed_call_leaves_the_next_number(rt: HostRuntime) {
    let failed = Drawn::Error(OracleError::Failed);
    let one = Drawn::Number(1);
    let two = Drawn::Number(2);
    draws(&rt, rt.alloc(), &[], [one, two, Drawn::Number(3)], 2);
    draws(&rt, rt.alloc(), &[1], [failed, one, two], 3);
    draws(&rt, rt.alloc(), &[2], [failed, one, two], 3);
    draws(&rt, rt.alloc(), &[1, 2], [failed, failed, one], 4);
    draws(&rt, rt.alloc(), &[2, 3], [failed, failed, one], 4);
}
