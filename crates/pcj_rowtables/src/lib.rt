//! In which rows of the table a triple stands.
#![tactic(auto)]

mod rows;

pub use rows::triple_rows;
