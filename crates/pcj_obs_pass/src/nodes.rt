ghost use Rattle.std.specs.Prelude.{◌≡◌, Some, IsSome};
ghost use Rattle.pcj_tree.specs.Meaning.{numbered};

use pcj_tree::Node;

/// The node with a number, which is one of the tree's.
pub(crate) fn node_at(nodes: &[Node], number: u16) -> &Node
    requires { IsSome (numbered nodes.now number) }
    ensures { numbered nodes.now number ≡ Some result.now }
{
    match nodes.get(usize::from(number) - 1) {
        Some(node) => node,
        None => unreachable!(),
    }
}
