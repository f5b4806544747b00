use crate::Node;
use pcj_term::Items;

/// The tree of a query.
#[derive(Drop)]
pub struct Tree {
    /// Numbered from 1. Children stand before their parents, and the last one has no parent.
    pub nodes: Items<Node>,
}
