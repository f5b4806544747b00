//! The program `pcj_bench`, which measures crates of this repository.
//!
//! Its first argument names a measure. It makes what the measure works on, or reads a document, a script or a query on
//! standard input, works on it again and again, and writes how many bytes a second that took, or, of a table of rows, how
//! long a call took at each number of rows, or, of loads, how many triples a second were loaded, or, of transactions, how
//! long a step took at each number of writes. Nothing here is promised: what is proved is that each call meets its
//! conditions, and that the program ends. The scripts in `bench/` run it.
#![tactic(auto)]

mod document;
mod engine;
mod failure;
mod join;
mod loads;
mod mix;
mod print;
mod query;
mod rate;
mod read;
mod row_table;
mod script;
mod split;
mod steps;

use document::measure_document;
use engine::Engine;
use failure::Failure;
use join::measure_join;
use loads::measure_loads;
use print::measure_print;
use query::measure_query;
use read::measure_read;
use row_table::measure_row_table;
use script::measure_script;
use split::measure_split;
use std::alloc::Global;
use std::env;
use std::fmt::Display;
use std::str::FromStr;
use steps::measure_steps;

fn main(rt: HostRuntime) -> Result<(), Failure> {
    let mut words = env::args(&rt)?;
    let (name, engine, size) = (words.nth(1), words.next(), words.next());
    let engine = Engine::named(engine.as_ref().map_or("", |word| word.as_str()));
    let size = size.as_ref().map_or("", |word| word.as_str());
    measure(
        &rt,
        name.as_ref().map_or("", |word| word.as_str()),
        engine,
        size.parse::<u32>().unwrap_or(1_000),
    )
}

/// Makes the measure of a name, and shows its figures.
fn measure(rt: &HostRuntime, name: &str, engine: Engine, size: u32) -> Result<(), Failure> {
    let alloc = rt.alloc();
    match name {
        "print_term" => show(rt, measure_print(rt, alloc)?),
        "read_term" => show(rt, measure_read(rt, alloc)?),
        "join_parts" => show(rt, measure_join(rt, alloc)?),
        "split_parts" => show(rt, measure_split(rt, alloc)?),
        "read_document" => show(rt, measure_document(rt, alloc, rt.stdin())?),
        "read_script" => show(rt, measure_script(rt, alloc, rt.stdin())?),
        "read_query" => show(rt, measure_query(rt, alloc, rt.stdin())?),
        "row_table" => show(rt, measure_row_table(rt, alloc, engine, size)?),
        "loads" => show(rt, measure_loads(rt, alloc, engine, size)?),
        "steps" => show_steps(rt, alloc),
        _ => show(
            rt,
            "usage: pcj_bench print_term|read_term|join_parts|split_parts|read_document|read_script|read_query|steps, or pcj_bench row_table|loads vector|pages SIZE",
        ),
    }
}

fn show_steps(rt: &HostRuntime, alloc: Global) -> Result<(), Failure> {
    for writes in [1, 10, 100, 1_000, 10_000] {
        show(rt, measure_steps(rt, alloc, writes)?)?;
    }
    Ok(())
}

fn show(rt: &HostRuntime, figures: impl Display + Copy) -> Result<(), Failure> {
    println!(rt; "{figures}")?;
    Ok(())
}
