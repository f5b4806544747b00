ghost use Rattle.std.specs.Prelude.{◌≡◌, IfOk};
ghost use Rattle.pcj_tree.specs.Read.{ReadsTree};
ghost use Rattle.pcj_tree.specs.Reading.{pattern_of, join_of, union_of, filter_of, project_of, group_of, lettered, kind_of, node_with, stored_node_of, nodes_of, tree_of};

use crate::fields::{number_of, numbers_of, slot_of, split_of};
use crate::reading_expr::expr_of;
use crate::{Node, NodeKind, Tree};
use pcj_algebra::{Aggregate, TriplePattern};
use pcj_term::{Bytes, Items, Memory, TryClone};
use std::alloc::Global;

/// How deep a condition may be: a query text has so many bytes at most, and each operator is one of them at least.
const LEVELS: u32 = 65_536;

/// The tree that is stored as these bytes, or `None` where they are the stored form of no tree. `Memory` where there is none
/// left for it.
pub fn read_tree(alloc: Global, bytes: &[u8]) -> Result<Option<Tree>, Memory>
    ensures { IfOk result (λ found. ReadsTree bytes.now found) }
{
    tree_of(alloc, bytes)
}

fn tree_of(alloc: Global, bytes: &[u8]) -> Result<Option<Tree>, Memory>
    ensures { IfOk result (λ found. found ≡ tree_of bytes.now) }
{
    let Some(parts) = split_of(alloc, bytes)? else {
        return Ok(None);
    };
    match nodes_of(alloc, parts.as_slice())? {
        Some(nodes) => Ok(Some(Tree { nodes })),
        None => Ok(None),
    }
}

fn nodes_of(alloc: Global, parts: &[Bytes]) -> Result<Option<Items<Node>>, Memory>
    ensures { IfOk result (λ found. found ≡ nodes_of parts.now) }
{
    let mut nodes = Vec::with_capacity(alloc, parts.len())?;
    for part in parts {
        match stored_node_of(alloc, part.as_slice())? {
            Some(node) => nodes.push(node)?,
            None => return Ok(None),
        }
    }
    Ok(Some(Items::from_vec(nodes)))
}

fn stored_node_of(alloc: Global, bytes: &[u8]) -> Result<Option<Node>, Memory>
    ensures { IfOk result (λ found. found ≡ stored_node_of bytes.now) }
{
    match split_of(alloc, bytes)? {
        Some(parts) => node_with(alloc, parts.as_slice()),
        None => Ok(None),
    }
}

fn node_with(alloc: Global, parts: &[Bytes]) -> Result<Option<Node>, Memory>
    ensures { IfOk result (λ found. found ≡ node_with parts.now) }
{
    let [letter, parent, order, fields @ ..] = parts else {
        return Ok(None);
    };
    let Some(parent) = number_of(parent.as_slice()) else {
        return Ok(None);
    };
    let Some(order) = split_of(alloc, order.as_slice())? else {
        return Ok(None);
    };
    match kind_of(alloc, letter.as_slice(), fields)? {
        Some(kind) => Ok(Some(Node {
            kind,
            parent,
            order,
        })),
        None => Ok(None),
    }
}

fn kind_of(alloc: Global, letter: &[u8], fields: &[Bytes]) -> Result<Option<NodeKind>, Memory>
    ensures { IfOk result (λ found. found ≡ kind_of letter.now fields.now) }
{
    match letter {
        [letter] => lettered(alloc, *letter, fields),
        _ => Ok(None),
    }
}

/// The kind that has this letter.
fn lettered(alloc: Global, letter: u8, fields: &[Bytes]) -> Result<Option<NodeKind>, Memory>
    ensures { IfOk result (λ found. found ≡ lettered letter fields.now) }
{
    match letter {
        b'p' => pattern_of(alloc, fields),
        b'j' => Ok(join_of(fields)),
        b'f' => filter_of(alloc, fields),
        b'u' => Ok(union_of(fields)),
        b'd' => Ok(project_of(fields)),
        b'c' => group_of(alloc, Aggregate::Count, fields),
        b's' => group_of(alloc, Aggregate::Sum, fields),
        b'l' => group_of(alloc, Aggregate::Min, fields),
        b'h' => group_of(alloc, Aggregate::Max, fields),
        _ => Ok(None),
    }
}

fn pattern_of(alloc: Global, fields: &[Bytes]) -> Result<Option<NodeKind>, Memory>
    ensures { IfOk result (λ found. found ≡ pattern_of fields.now) }
{
    let [first, second, third] = fields else {
        return Ok(None);
    };
    let Some(subject) = slot_of(alloc, first.as_slice())? else {
        return Ok(None);
    };
    let Some(predicate) = slot_of(alloc, second.as_slice())? else {
        return Ok(None);
    };
    match slot_of(alloc, third.as_slice())? {
        Some(object) => Ok(Some(NodeKind::Pattern(TriplePattern {
            subject,
            predicate,
            object,
        }))),
        None => Ok(None),
    }
}

fn join_of(fields: &[Bytes]) -> Option<NodeKind>
    ensures { result ≡ join_of fields.now }
{
    let (left, right) = numbers_of(fields)?;
    Some(NodeKind::Join { left, right })
}

fn union_of(fields: &[Bytes]) -> Option<NodeKind>
    ensures { result ≡ union_of fields.now }
{
    let (left, right) = numbers_of(fields)?;
    Some(NodeKind::Union { left, right })
}

fn filter_of(alloc: Global, fields: &[Bytes]) -> Result<Option<NodeKind>, Memory>
    ensures { IfOk result (λ found. found ≡ filter_of fields.now) }
{
    let [first, second] = fields else {
        return Ok(None);
    };
    let Some(child) = number_of(first.as_slice()) else {
        return Ok(None);
    };
    match expr_of(alloc, LEVELS, second.as_slice())? {
        Some(expr) => Ok(Some(NodeKind::Filter { child, expr })),
        None => Ok(None),
    }
}

fn project_of(fields: &[Bytes]) -> Option<NodeKind>
    ensures { result ≡ project_of fields.now }
{
    match fields {
        [first] => Some(NodeKind::Project {
            child: number_of(first.as_slice())?,
        }),
        _ => None,
    }
}

fn group_of(
    alloc: Global,
    aggregate: Aggregate,
    fields: &[Bytes],
) -> Result<Option<NodeKind>, Memory>
    ensures { IfOk result (λ found. found ≡ group_of aggregate fields.now) }
{
    let [first, second] = fields else {
        return Ok(None);
    };
    match number_of(first.as_slice()) {
        Some(child) => Ok(Some(NodeKind::Group {
            child,
            aggregate,
            var: second.try_clone(alloc)?,
        })),
        None => Ok(None),
    }
}
