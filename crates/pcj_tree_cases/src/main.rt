//! The program `pcj_tree_cases`, which builds the trees of query texts, stores and reads them, and writes what they are.
//!
//! It reads cases on standard input, a line each: the name of a call and its argument, with a TAB between. It writes each
//! line again with the answer behind it. `stdin` has the cases, and `stdout` what the rules of trees say of them. `README.md`
//! has the calls.
//!
//! Nothing is promised of what is written: what is proved is that each call meets its conditions, and that the program
//! ends.
#![tactic(auto)]

mod call;
mod condition;
mod show;

use pcj_case_lines::{Answer, Cases, Unanswered, answer_lines, fields, word};
use std::process::ExitCode;

/// The calls on trees.
struct Trees;

impl Cases for Trees {
    fn answer(&self, out: &mut Answer, line: &str) -> Result<(), Unanswered> {
        let fields = fields(out.alloc, line)?;
        match fields.as_slice() {
            [call, argument] => call::answer(out.alloc, out, word(call), argument.as_slice()),
            _ => Err(Unanswered::NoCase),
        }
    }
}

fn main(rt: HostRuntime) -> ExitCode {
    match answer_lines(&rt, b'\t', &Trees) {
        Ok(tally) if tally.unanswered == 0 => ExitCode::SUCCESS,
        _ => ExitCode::FAILURE,
    }
}
