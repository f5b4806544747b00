ghost use Rattle.std.specs.Prelude.{◌≡◌, true, IfOk};
ghost use Rattle.pcj_algebra.specs.declared.query.Query.{Query};
ghost use Rattle.pcj_tree.specs.Tree.{IsTree};
ghost use Rattle.pcj_rebuild.specs.Query.{HasQuery, unnamed};
ghost use Rattle.pcj_rebuild.specs.Parts.{HasQueryOver, IsQueryOver, child_at, is_top, shape_at};

use crate::parts::part_of;
use pcj_algebra::{Query, Shape};
use pcj_term::{Bytes, Memory, TryClone};
use pcj_tree::{Node, NodeKind, Tree};
use std::alloc::Global;

/// The query whose tree this is. The name behind AS, which a tree doesn't have, is empty.
pub fn query_of(alloc: Global, tree: &Tree) -> Result<Query, Memory>
    requires { HasQuery tree.now }
    ensures is { IfOk result (λ query. IsTree query tree.now) }
    ensures one { (query : Query) → IsTree query tree.now → IfOk result (λ found. found ≡ unnamed query) }
{
    match tree.nodes.as_slice().split_last() {
        Some((top, parts)) => query_over(alloc, parts, top),
        None => unreachable!(),
    }
}

/// The query that has these parts, by the last node, which is over all of them.
fn query_over(alloc: Global, parts: &[Node], top: &Node) -> Result<Query, Memory>
    requires { HasQueryOver parts.now top.now }
    ensures { (query : Query) → IsQueryOver query parts.now top.now → IfOk result (λ found. found ≡ unnamed query) }
{
    let shape = shape_of(alloc, top)?;
    let pattern = part_of(alloc, parts, child_of(top))?;
    Ok(Query { shape, pattern })
}

/// The number of the node that the last one is over.
fn child_of(top: &Node) -> u16
    requires { is_top top.now.kind ≡ true }
    ensures { result ≡ child_at top.now.kind }
{
    match &top.kind {
        NodeKind::Project { child } => *child,
        NodeKind::Group { child, .. } => *child,
        _ => unreachable!(),
    }
}

/// The shape that the last node has.
fn shape_of(alloc: Global, top: &Node) -> Result<Shape, Memory>
    requires { is_top top.now.kind ≡ true }
    ensures { IfOk result (λ shape. shape ≡ shape_at top.now) }
{
    match &top.kind {
        NodeKind::Project { .. } => Ok(Shape::Distinct(top.order.try_clone(alloc)?)),
        NodeKind::Group { aggregate, var, .. } => Ok(Shape::Group {
            keys: top.order.try_clone(alloc)?,
            aggregate: *aggregate,
            var: var.try_clone(alloc)?,
            as_name: Bytes::new(alloc),
        }),
        _ => unreachable!(),
    }
}
