//! The query of a tree: its pattern, put together from the nodes, and its shape.
#![tactic(auto)]

mod laws;
mod parts;
mod query;

pub use laws::trees_have_one_query;
pub use query::query_of;
