//! The program `pcj_query_cases`, which puts queries and mappings together, and writes copies of them and what is said of
//! them.
//!
//! It reads cases on standard input, a line each: words in postfix order. It writes each line again with the answer behind
//! it. `stdin` has the cases, and `stdout` the same lines with what was to be answered. `README.md` has the words.
//!
//! Nothing is promised of what is written: what is proved is that each call meets its conditions, and that the program
//! ends.
#![tactic(auto)]

mod calls;
mod lines;
mod parts;
mod show;
mod words;

use pcj_case_lines::{Answer, Cases, Unanswered, answer_lines};
use std::process::ExitCode;
use words::answer_words;

/// The words of a line, put together.
struct PostfixCases;

impl Cases for PostfixCases {
    fn answer(&self, out: &mut Answer, line: &str) -> Result<(), Unanswered> {
        answer_words(out.alloc, out, line)
    }
}

fn main(rt: HostRuntime) -> ExitCode {
    match answer_lines(&rt, b' ', &PostfixCases) {
        Ok(tally) if tally.unanswered == 0 => ExitCode::SUCCESS,
        _ => ExitCode::FAILURE,
    }
}
