//! Queries of texts: their trees can be stored.
#![tactic(auto)]

mod laws;

pub use laws::queries_can_be_stored;
