//! Query trees: a node for each part of a query, and the form in which a tree is stored.
#![tactic(auto)]

mod building;
mod fields;
mod laws;
mod node;
mod order;
mod parts;
mod reading;
mod reading_expr;
mod sizes;
mod storing;
mod storing_expr;
mod tree;

pub use building::build;
pub use laws::{nodes_mean_their_parts, one_stored_form, rows_are_solutions, trees_can_be_stored};
pub use node::{Node, NodeKind};
pub use parts::push_slot;
pub use reading::read_tree;
pub use sizes::can_build;
pub use storing::store_tree;
pub use tree::Tree;
