ghost use Rattle.std.specs.Prelude.{◌≡◌, ◌≤◌, ◌+◌, ◌++◌, IfOk, OnOk};
ghost use Rattle.std.specs.Option.{option_copied};
ghost use Rattle.pcj_tree.specs.Tree.{IsTree, AddsNode, AddsNodes, size_of, top_node};

use crate::order::order_of;
use crate::sizes::size_of;
use crate::{Node, NodeKind, Tree};
use pcj_algebra::{Pattern, Query, Shape};
use pcj_term::{Items, Memory, TryClone};
use std::alloc::Global;

/// The tree of a query.
pub fn build(alloc: Global, query: &Query) -> Result<Tree, Memory>
    requires { size_of query.now.pattern + 1 ≤ 128 }
    ensures { IfOk result (λ tree. IsTree query.now tree) }
{
    let size = size_of(&query.pattern);
    let mut nodes = Vec::new(alloc);
    push_nodes(alloc, &mut nodes, &query.pattern, 0, size + 1, None)?;
    nodes.push(top_node(alloc, &query.shape, size)?)?;
    Ok(Tree {
        nodes: Items::from_vec(nodes),
    })
}

/// The last node, over the node of the whole pattern.
fn top_node(alloc: Global, shape: &Shape, child: u16) -> Result<Node, Memory>
    ensures { IfOk result (λ node. node ≡ top_node shape.now child) }
{
    match shape {
        Shape::Distinct(names) => Ok(Node {
            order: names.try_clone(alloc)?,
            kind: NodeKind::Project { child },
            parent: 0,
        }),
        Shape::Group {
            keys,
            aggregate,
            var,
            as_name: _,
        } => Ok(Node {
            order: keys.try_clone(alloc)?,
            kind: NodeKind::Group {
                child,
                aggregate: *aggregate,
                var: var.try_clone(alloc)?,
            },
            parent: 0,
        }),
    }
}

/// Adds the nodes of a pattern's parts, whose numbers follow `before`: a child's before its parent's, and the left child's
/// before the right one's.
fn push_nodes(
    alloc: Global,
    nodes: &mut Vec<Node>,
    pattern: &Pattern,
    before: u16,
    parent: u16,
    sibling: Option<&Pattern>,
) -> Result<(), Memory>
    requires { before + size_of pattern.now + 1 ≤ 128 }
    ensures { OnOk result (AddsNodes pattern.now before parent (option_copied sibling.entry) nodes.old.items nodes.new.items) }
{
    match pattern {
        Pattern::Triple(of) => {
            let kind = NodeKind::Pattern(of.try_clone(alloc)?);
            push_node(alloc, nodes, kind, pattern, parent, sibling)
        }
        Pattern::Join(left, right) => {
            let (left, right) = (left.get(), right.get());
            let left_last = before + size_of(left);
            let last = left_last + size_of(right);
            push_nodes(alloc, nodes, left, before, last + 1, Some(right))?;
            push_nodes(alloc, nodes, right, left_last, last + 1, Some(left))?;
            let kind = NodeKind::Join {
                left: left_last,
                right: last,
            };
            push_node(alloc, nodes, kind, pattern, parent, sibling)
        }
        Pattern::Filter(condition, inner) => {
            let inner = inner.get();
            let last = before + size_of(inner);
            push_nodes(alloc, nodes, inner, before, last + 1, None)?;
            let kind = NodeKind::Filter {
                child: last,
                expr: condition.try_clone(alloc)?,
            };
            push_node(alloc, nodes, kind, pattern, parent, sibling)
        }
        Pattern::Union(left, right) => {
            let (left, right) = (left.get(), right.get());
            let left_last = before + size_of(left);
            let last = left_last + size_of(right);
            push_nodes(alloc, nodes, left, before, last + 1, None)?;
            push_nodes(alloc, nodes, right, left_last, last + 1, None)?;
            let kind = NodeKind::Union {
                left: left_last,
                right: last,
            };
            push_node(alloc, nodes, kind, pattern, parent, sibling)
        }
    }
}

/// Adds the node of a part.
fn push_node(
    alloc: Global,
    nodes: &mut Vec<Node>,
    kind: NodeKind,
    part: &Pattern,
    parent: u16,
    sibling: Option<&Pattern>,
) -> Result<(), Memory>
    ensures { OnOk result (AddsNode kind part.now parent (option_copied sibling.entry) nodes.old.items nodes.new.items) }
{
    let order = order_of(alloc, part, sibling)?;
    nodes.push(Node {
        kind,
        parent,
        order,
    })?;
    Ok(())
}
