//! Queries of the profile of SPARQL 1.1, in the standard's algebra.
#![tactic(auto)]

mod laws;
mod matching;
mod names;
mod pattern;
mod query;
mod triple_pattern;

pub use laws::matches_at_most_once;
pub use matching::match_triple;
pub use names::variables;
pub use pattern::Pattern;
pub use query::{Aggregate, Query, Shape};
pub use triple_pattern::{Slot, TriplePattern};
