//! Scripts over a table in memory.

ghost use Rattle.std.specs.Prelude.{◌≤◌, ◌^◌};

use crate::clock::set_first;
use crate::mem_table::{failing_at, in_memory};
use crate::oracles::LAST;
use crate::{faults, scripts};
use std::alloc::Global;
use std::process::Abort;

/// How many calls a run makes at its entry over a table without rows.
pub(crate) const ENTRY: u64 = 3;

/// A script ends with this status where this number is granted first, and this is written.
fn ends_from(rt: &impl Abort, alloc: Global, number: u64, script: &[u8], written: &[u8], status: u8)
    requires first { 1 ≤ number }
    requires last { number ≤ 2 ^ 48 }
{
    let mut table = in_memory(alloc);
    let Ok(()) = set_first(alloc, &mut table, number) else {
        panic!(rt; "the clock isn't set");
    };
    scripts::replays(rt, alloc, &mut table, script, status, written);
}

#[test]
fn a_load_ends_where_no_number_is_left(rt: HostRuntime) {
    let script = b"load c1\nend\nstep c1 5\nanswers q\n";
    let cut = b"c1 load 281474976710655 0 triples\nspent\n";
    ends_from(&rt, rt.alloc(), LAST, script, cut, 6);
    ends_from(&rt, rt.alloc(), LAST + 1, b"load c1\nend\n", b"spent\n", 6);
    let script = b"load c1\nend\nstep c1 5\nload c2\nend\n";
    let cut =
        b"c1 load 281474976710654 0 triples\nc1 committed 281474976710655\nc1 done\nc1 steps 3\nspent\n";
    ends_from(&rt, rt.alloc(), LAST - 1, script, cut, 6);
    // the refused line isn't reached
    let script = b"load c1\nend\nbogus\n";
    ends_from(&rt, rt.alloc(), LAST + 1, script, b"spent\n", 6);
}

#[test]
fn a_registration_ends_where_its_commit_has_no_number(rt: HostRuntime) {
    let script =
        b"register c1 q\nSELECT DISTINCT ?x WHERE { ?x ?p ?y }\nend\nstep c1 5\nstep c1 6\n";
    let cut = b"c1 register 281474976710655 q\nc1 steps 5\nspent\n";
    ends_from(&rt, rt.alloc(), LAST, script, cut, 6);
    ends_from(&rt, rt.alloc(), LAST + 1, script, b"spent\n", 6);
}

#[test]
fn what_takes_no_number_is_answered_where_none_is_left(rt: HostRuntime) {
    let script = b"load c1\nx\nend\nanswers q\nstep c1 1\nstatus\n";
    let whole = b"c1 refused 1 2\nno query q\nc1 nothing\nc1 steps 0\nnotifications 0 locks 0\n";
    ends_from(&rt, rt.alloc(), LAST + 1, script, whole, 0);
}

fn shows_usage(rt: &impl Abort, alloc: Global, words: &[&str]) {
    scripts::other_words_show_the_usage(rt, alloc, &mut in_memory(alloc), words, false);
    scripts::other_words_show_the_usage(rt, alloc, &mut in_memory(alloc), words, true);
}

#[test]
fn other_words_show_the_usage_line(rt: HostRuntime) {
    shows_usage(&rt, rt.alloc(), &[]);
    shows_usage(&rt, rt.alloc(), &["replay", "x"]);
    shows_usage(&rt, rt.alloc(), &["Replay"]);
    shows_usage(&rt, rt.alloc(), &["--help"]);
}

#[test]
fn a_fault_of_a_read_leaves_what_stands_whole(rt: HostRuntime) {
    for read in 0..=scripts::SCRIPT.len() + 1 {
        scripts::fail_at_a_read(&rt, rt.alloc(), &mut in_memory(rt.alloc()), read);
    }
}

#[test]
fn a_fault_of_a_write_leaves_a_prefix(rt: HostRuntime) {
    for before in 0..=scripts::TRANSCRIPT.len() {
        scripts::fail_at_a_write(&rt, rt.alloc(), &mut in_memory(rt.alloc()), before);
    }
}

#[test]
fn a_fault_of_the_entry_ends_the_run(rt: HostRuntime) {
    for call in 1..=ENTRY {
        let Ok(mut table) = failing_at(rt.alloc(), &[call]) else {
            panic!(rt; "no memory");
        };
        faults::end_at_the_entry(&rt, rt.alloc(), &mut table);
    }
}

#[test]
fn a_fault_of_the_table_is_told_and_all_goes_on(rt: HostRuntime) {
    for call in 1..=38 {
        let Ok(mut table) = failing_at(rt.alloc(), &[ENTRY + call]) else {
            panic!(rt; "no memory");
        };
        faults::are_told(&rt, rt.alloc(), &mut table, call);
    }
}

#[test]
fn a_run_goes_on_where_another_ended(rt: HostRuntime) {
    scripts::go_on_after_a_run(&rt, rt.alloc(), &mut in_memory(rt.alloc()));
}

#[test]
fn std_streams_carry_a_script(rt: HostRuntime) {
    scripts::go_through_std(&rt, rt.alloc(), &mut in_memory(rt.alloc()));
}
