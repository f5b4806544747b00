//! Observers that pass a row of a node on to the node's parent: so far below a projection, the last node of a query
//! `SELECT DISTINCT ..`.
//!
//! `plan_pass` says what is asked next for the task of such a row (`pcj_notify`), by the tree of its registration (`pcj_tree`) and
//! the answers so far. It keeps nothing from one call to the next. `cells_are_projected` and `asks_are_one` are proofs of what holds
//! of its definitions.
//!
//! A further kind of parent is one more arm of the match on the parent's kind, and one more case of `IsPassAsk`.
#![tactic(auto)]

mod cells;
mod laws;
mod nodes;
mod plan;

pub use laws::{asks_are_one, cells_are_projected};
pub use plan::plan_pass;
