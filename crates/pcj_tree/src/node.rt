use pcj_algebra::{Aggregate, TriplePattern};
use pcj_expr::Expr;
use pcj_term::{Bytes, Items};

/// What a node is for, and the numbers of the nodes that it is over.
#[derive(Drop)]
pub enum NodeKind {
    /// The matches of a triple pattern.
    Pattern(TriplePattern),
    /// What compatible rows of two nodes give together.
    Join {
        left: u16,
        right: u16,
    },
    /// The rows for which a condition is true.
    Filter {
        child: u16,
        expr: Expr,
    },
    /// The rows of either node.
    Union {
        left: u16,
        right: u16,
    },
    /// The last node of a query without an aggregate: the selected variables of each row.
    Project {
        child: u16,
    },
    /// The last node of a query with an aggregate of a variable: the keys of its groups.
    Group {
        child: u16,
        aggregate: Aggregate,
        var: Bytes,
    },
}

/// A node of a tree.
#[derive(Drop)]
pub struct Node {
    /// What it is for.
    pub kind: NodeKind,
    /// The number of the node that is over it, and 0 of the last one.
    pub parent: u16,
    /// Its variables, in the order of a row's cells.
    pub order: Items<Bytes>,
}
