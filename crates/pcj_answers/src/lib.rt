//! The printed lines of a query's answer over a set of triples, from the matches of its triple patterns.
#![tactic(auto)]

mod aggregates;
mod answers;
mod groups;
mod laws;
mod rows;

pub use answers::lines;
pub use laws::{lines_are_one_list, lines_exist};
