//! The solutions of a pattern of SPARQL 1.1 over a set of triples, from the matches of its triple patterns.
//!
//! A set of mappings is the list of them that ascends by `mapping_cmp`, each once. [`solutions`] gives that of a whole
//! pattern; [`join`], [`filter`] and [`union`] are its parts. A pattern has one such list over each set of triples, by
//! [`solutions_are_one_list`].
#![tactic(auto)]

mod conditions;
mod joins;
mod laws;
mod matches;
mod merging;
mod order;
mod patterns;
mod sets;

pub use conditions::filter;
pub use joins::{alike, compare_on, join, sorted};
pub use laws::solutions_are_one_list;
pub use matches::matches_of;
pub use order::compare_terms;
pub use patterns::solutions;
pub use sets::union;
