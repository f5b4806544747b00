ghost use Rattle.std.specs.Prelude.{◌≡◌, ◌↔◌, ◌<◌, ◌≤◌, ◌+◌, ◌^◌, min, IsTrue};
ghost use Rattle.pcj_tree.specs.Tree.{size_of};

use pcj_algebra::{Pattern, Query};

/// How many nodes a tree has at most.
const NODE_LIMIT: usize = 128;

/// Whether a query's tree has 128 nodes at most, so that `build` makes it. What `pcj_sparql` reads has no more.
pub fn can_build(query: &Query) -> bool
    ensures { IsTrue result ↔ (size_of query.now.pattern + 1 ≤ 128) }
{
    parts_counted(&query.pattern) < NODE_LIMIT
}

/// The parts of a pattern: no more are counted than a number can say.
fn parts_counted(pattern: &Pattern) -> usize
    ensures { result ≡ min (size_of pattern.now) 18446744073709551615 }
{
    match pattern {
        Pattern::Triple(_) => 1,
        Pattern::Filter(_, inner) => parts_counted(inner.get()).saturating_add(1),
        Pattern::Join(left, right) | Pattern::Union(left, right) => {
            let sides = parts_counted(left.get()).saturating_add(parts_counted(right.get()));
            sides.saturating_add(1)
        }
    }
}

/// How many parts a pattern has, itself among them.
pub(crate) fn size_of(pattern: &Pattern) -> u16
    requires { size_of pattern.now < 2 ^ 16 }
    ensures { result ≡ size_of pattern.now }
{
    match pattern {
        Pattern::Triple(_) => 1,
        Pattern::Join(left, right) => size_of(left.get()) + size_of(right.get()) + 1,
        Pattern::Filter(_, inner) => size_of(inner.get()) + 1,
        Pattern::Union(left, right) => size_of(left.get()) + size_of(right.get()) + 1,
    }
}
