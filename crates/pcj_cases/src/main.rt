//! The program `pcj_cases`, which makes single calls of the libraries of terms, keys and rows and writes their answers.
//!
//! It reads cases on standard input, a line each: the name of a call and its arguments, with TABs between. It writes each
//! line again with the answer behind it. `stdin` has the cases, and `stdout` what the rules of the formats and the public
//! standards say of them. Both are compared with each build, and a further case costs no proof. `README.md` has the
//! form of a line and the calls.
//!
//! Nothing is promised of what is written: what is proved is that each call meets its conditions, and that the program
//! ends.
#![tactic(auto)]

mod act;
mod argument;
mod bytes;
mod call;
mod items;
mod key;
mod name;
mod range;
mod row;
mod task;
mod term;
mod text;

use pcj_case_lines::{Answer, Cases, Unanswered, answer_lines, fields, word};
use std::process::ExitCode;

/// The single calls of the libraries.
struct Calls;

impl Cases for Calls {
    fn answer(&self, out: &mut Answer, line: &str) -> Result<(), Unanswered> {
        let fields = fields(out.alloc, line)?;
        match fields.as_slice() {
            [call, arguments @ ..] => call::answer(out.alloc, out, word(call), arguments),
            [] => Err(Unanswered::NoCase),
        }
    }
}

fn main(rt: HostRuntime) -> ExitCode {
    match answer_lines(&rt, b'\t', &Calls) {
        Ok(tally) if tally.unanswered == 0 => ExitCode::SUCCESS,
        _ => ExitCode::FAILURE,
    }
}
