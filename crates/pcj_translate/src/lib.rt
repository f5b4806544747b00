//! What the tokens of a query mean in the algebra (SPARQL 1.1 Query, section 18.2.2).
//!
//! A `Reader` goes over the tokens of a group and gives its pattern. What a derivation of the grammar means is in
//! `specs/`: `Term`, `Triples`, `Filter` and `Group`, a line for each production. What is wrong in groups is in `Uses`.
#![tactic(auto)]

mod content;
mod joining;
mod name_set;
mod places;
mod reader;
mod scope;
mod source;

pub use name_set::NameSet;
pub use places::{lower, lower_of};
pub use reader::Reader;
pub use scope::Prefixes;
pub use source::{behind_first, inside_of, prefix_of, source_of};
