ghost use Rattle.std.specs.Prelude.{◌≡◌, Some, Ok, IfOk, IsSome};
ghost use Rattle.pcj_rebuild.specs.Parts.{HasPart, IsPart, kind_at};

use pcj_algebra::Pattern;
use pcj_term::{Memory, TryClone};
use pcj_tree::{Node, NodeKind};
use sqlite_items::Boxed;
use std::alloc::Global;

/// The part of a pattern that the node with a number is for.
pub(crate) fn part_of(alloc: Global, nodes: &[Node], number: u16) -> Result<Pattern, Memory>
    requires { HasPart nodes.now number }
    ensures { IfOk result (λ part. IsPart nodes.now number part) }
{
    match kind_at(nodes, number) {
        NodeKind::Pattern(of) => Ok(Pattern::Triple(of.try_clone(alloc)?)),
        NodeKind::Join { left, right } => {
            let left = boxed(alloc, part_of(alloc, nodes, *left))?;
            let right = boxed(alloc, part_of(alloc, nodes, *right))?;
            Ok(Pattern::Join(left, right))
        }
        NodeKind::Filter { child, expr } => {
            let inner = boxed(alloc, part_of(alloc, nodes, *child))?;
            Ok(Pattern::Filter(expr.try_clone(alloc)?, inner))
        }
        NodeKind::Union { left, right } => {
            let left = boxed(alloc, part_of(alloc, nodes, *left))?;
            let right = boxed(alloc, part_of(alloc, nodes, *right))?;
            Ok(Pattern::Union(left, right))
        }
        NodeKind::Project { .. } | NodeKind::Group { .. } => unreachable!(),
    }
}

/// What the node with a number is for.
fn kind_at(nodes: &[Node], number: u16) -> &NodeKind
    requires { IsSome (kind_at nodes.now number) }
    ensures { kind_at nodes.now number ≡ Some result.now }
{
    match nodes.get(usize::from(number) - 1) {
        Some(node) => &node.kind,
        None => unreachable!(),
    }
}

/// A part behind a box, where there is one.
fn boxed(alloc: Global, part: Result<Pattern, Memory>) -> Result<Boxed<Pattern>, Memory>
    ensures { IfOk result (λ inner. part ≡ Ok inner) }
{
    let part = part?;
    Ok(Boxed::new(alloc, part)?)
}
