//! The program `pcj_step_cases`, which carries out steps of transactions, recoveries, reads and actors in a given order over an
//! empty table in memory, and writes what each came to.
//!
//! It reads cases on standard input, a line each: the number of the table's call that is to fail, or 0, and then words
//! for the steps. It writes each line again with the answers behind it. `stdin` has the cases, and `stdout` what the rules
//! say of them. `README.md` has the words.
//!
//! Nothing is promised of what is written: what is proved is that each call meets its conditions, and that the program
//! ends.
#![tactic(auto)]

mod client;
mod clock;
mod scene;
mod show;
mod words;

use pcj_case_lines::{Answer, Cases, Unanswered, answer_lines};
use pcj_memtable::MemTable;
use pcj_term::Items;
use scene::Scene;
use std::alloc::Global;
use std::process::ExitCode;
use std::str::FromStr;
use words::answer_words;

/// The calls that are to fail, by the first word of a line.
fn failing(alloc: Global, word: &str) -> Result<Items<u64>, Unanswered> {
    let mut failing = Items::new(alloc);
    match word.parse::<u64>() {
        Ok(0) => {}
        Ok(call) => failing.push(call)?,
        Err(_) => return Err(Unanswered::NoCase),
    }
    Ok(failing)
}

/// Adds the answers of a case.
fn answer_case(alloc: Global, out: &mut Answer, line: &str) -> Result<(), Unanswered> {
    let Some((first, steps)) = line.split_once(' ') else {
        return Err(Unanswered::NoCase);
    };
    let mut table = MemTable::new(alloc, failing(alloc, first)?);
    let mut scene = Scene::new(alloc);
    answer_words(&mut scene, &mut table, out, steps)
}

/// The steps of a line, carried out.
struct Steps;

impl Cases for Steps {
    fn answer(&self, out: &mut Answer, line: &str) -> Result<(), Unanswered> {
        answer_case(out.alloc, out, line)
    }
}

fn main(rt: HostRuntime) -> ExitCode {
    match answer_lines(&rt, b' ', &Steps) {
        Ok(tally) if tally.unanswered == 0 => ExitCode::SUCCESS,
        _ => ExitCode::FAILURE,
    }
}
