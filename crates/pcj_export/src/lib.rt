//! Exports: a result row of a registered query is written as a printed line, and the lines of a query are read back.
//!
//! `plan_export` says what a worker asks of the table for a task of an export: that the line is written on the row of the export,
//! as a plain value, and then the end of the task. `read_answers` gives the lines of a registration.
#![tactic(auto)]

mod laws;
mod plan;
mod reading;

pub use laws::{asks_are_one, lines_are_row_lines, plains_alone_are_met};
pub use plan::plan_export;
pub use reading::read_answers;
