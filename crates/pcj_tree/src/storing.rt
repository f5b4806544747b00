ghost use Rattle.std.specs.Prelude.{◌≡◌, [], ◌∷◌, ◌++◌, IfOk, OnOk};
ghost use Rattle.pcj_encode.specs.Name.{node_part};
ghost use Rattle.pcj_key.specs.Key.{key_of};
ghost use Rattle.pcj_tree.specs.Stored.{kind_part, kind_fields, aggregate_part, stored_node, stored_tree};

use crate::parts::{push_bytes, push_number, push_slot};
use crate::storing_expr::stored_expr;
use crate::{Node, NodeKind, Tree};
use pcj_algebra::Aggregate;
use pcj_key::join_parts;
use pcj_term::{Bytes, Items, Memory};
use std::alloc::Global;

/// The bytes that a tree is stored as: the key of its nodes, each of which is the key of its kind, its parent, its order and
/// what else it has. `Memory` where there is none left for them.
pub fn store_tree(alloc: Global, tree: &Tree) -> Result<Bytes, Memory>
    ensures { IfOk result (λ bytes. bytes ≡ stored_tree tree.now) }
{
    let mut nodes = Vec::new(alloc);
    for node in tree.nodes.as_slice() {
        nodes.push(stored_node(alloc, node)?)?;
    }
    join_parts(alloc, nodes.as_slice())
}

fn stored_node(alloc: Global, node: &Node) -> Result<Bytes, Memory>
    ensures { IfOk result (λ bytes. bytes ≡ stored_node node.now) }
{
    let mut parts = Items::new(alloc);
    push_bytes(alloc, &mut parts, kind_part(&node.kind))?;
    push_number(alloc, &mut parts, node.parent)?;
    push_order(alloc, &mut parts, node.order.as_slice())?;
    push_fields(alloc, &mut parts, &node.kind)?;
    join_parts(alloc, parts.as_slice())
}

fn push_order(alloc: Global, parts: &mut Items<Bytes>, order: &[Bytes]) -> Result<(), Memory>
    ensures { OnOk result (parts.new ≡ parts.old ++ key_of order.now ∷ []) }
{
    parts.push(join_parts(alloc, order)?)
}

/// The letter of a node's kind, or of its aggregate.
fn kind_part(kind: &NodeKind) -> &'static [u8]
    ensures { result.now ≡ kind_part kind.now }
{
    match kind {
        NodeKind::Pattern(_) => b"p",
        NodeKind::Join { .. } => b"j",
        NodeKind::Filter { .. } => b"f",
        NodeKind::Union { .. } => b"u",
        NodeKind::Project { .. } => b"d",
        NodeKind::Group { aggregate, .. } => aggregate_part(*aggregate),
    }
}

fn aggregate_part(aggregate: Aggregate) -> &'static [u8]
    ensures { result.now ≡ aggregate_part aggregate }
{
    match aggregate {
        Aggregate::Count => b"c",
        Aggregate::Sum => b"s",
        Aggregate::Min => b"l",
        Aggregate::Max => b"h",
    }
}

/// Adds what a node has beside its parent and its order.
fn push_fields(alloc: Global, parts: &mut Items<Bytes>, kind: &NodeKind) -> Result<(), Memory>
    ensures { OnOk result (parts.new ≡ parts.old ++ kind_fields kind.now) }
{
    match kind {
        NodeKind::Pattern(of) => {
            push_slot(alloc, parts, &of.subject)?;
            push_slot(alloc, parts, &of.predicate)?;
            push_slot(alloc, parts, &of.object)
        }
        NodeKind::Join { left, right } => push_two(alloc, parts, *left, *right),
        NodeKind::Filter { child, expr } => {
            push_number(alloc, parts, *child)?;
            parts.push(stored_expr(alloc, expr)?)
        }
        NodeKind::Union { left, right } => push_two(alloc, parts, *left, *right),
        NodeKind::Project { child } => push_number(alloc, parts, *child),
        NodeKind::Group { child, var, .. } => {
            push_number(alloc, parts, *child)?;
            push_bytes(alloc, parts, var.as_slice())
        }
    }
}

fn push_two(alloc: Global, parts: &mut Items<Bytes>, left: u16, right: u16) -> Result<(), Memory>
    ensures { OnOk result (parts.new ≡ parts.old ++ node_part left ∷ node_part right ∷ []) }
{
    push_number(alloc, parts, left)?;
    push_number(alloc, parts, right)
}
