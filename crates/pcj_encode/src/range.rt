ghost use Rattle.std.specs.Prelude.{◌≡◌, ◌≢◌, [], IfOk};
ghost use Rattle.pcj_encode.specs.Range.{nodes, exports, patterns, tasks, registrations, triples, groups, range_of, range_from};

use crate::KeyRange;
use crate::parts::Parts;
use crate::tag::Tag;
use pcj_key::{join_parts, prefix_end};
use pcj_term::{Bytes, Memory};
use std::alloc::Global;

/// The rows of a node whose first cells are these.
pub fn node_range(
    alloc: Global,
    registration: u64,
    node: u16,
    cells: &[Bytes],
) -> Result<KeyRange, Memory>
    ensures { IfOk result (λ range. range ≡ range_of (nodes registration node cells.now)) }
{
    let front = Parts::of(alloc, Tag::Node)?
        .registration(registration)?
        .node(node)?
        .cells(cells)?;
    range_from(alloc, front.as_slice())
}

/// The exported rows of a registered query.
pub fn export_range(alloc: Global, registration: u64) -> Result<KeyRange, Memory>
    ensures { IfOk result (λ range. range ≡ range_of (exports registration)) }
{
    let front = Parts::of(alloc, Tag::Export)?.registration(registration)?;
    range_from(alloc, front.as_slice())
}

/// The patterns of all registered queries.
pub fn pattern_range(alloc: Global) -> Result<KeyRange, Memory>
    ensures { IfOk result (λ range. range ≡ range_of patterns) }
{
    let front = Parts::of(alloc, Tag::Pattern)?;
    range_from(alloc, front.as_slice())
}

/// The tasks of all kinds.
pub fn task_range(alloc: Global) -> Result<KeyRange, Memory>
    ensures { IfOk result (λ range. range ≡ range_of tasks) }
{
    let front = Parts::of(alloc, Tag::Task)?;
    range_from(alloc, front.as_slice())
}

/// The registered queries, by number.
pub fn registration_range(alloc: Global) -> Result<KeyRange, Memory>
    ensures { IfOk result (λ range. range ≡ range_of registrations) }
{
    let front = Parts::of(alloc, Tag::Registration)?;
    range_from(alloc, front.as_slice())
}

/// The triples, in the order of subject, predicate and object.
pub fn triple_range(alloc: Global) -> Result<KeyRange, Memory>
    ensures { IfOk result (λ range. range ≡ range_of triples) }
{
    let front = Parts::of(alloc, Tag::Spo)?;
    range_from(alloc, front.as_slice())
}

/// The groups of a registered query.
pub fn group_range(alloc: Global, registration: u64) -> Result<KeyRange, Memory>
    ensures { IfOk result (λ range. range ≡ range_of (groups registration)) }
{
    let front = Parts::of(alloc, Tag::Group)?.registration(registration)?;
    range_from(alloc, front.as_slice())
}

/// The range of what begins with the key of these parts.
fn range_from(alloc: Global, front: &[Bytes]) -> Result<KeyRange, Memory>
    requires { front.now ≢ [] }
    ensures { IfOk result (λ range. range ≡ range_from front.now) }
{
    let prefix = join_parts(alloc, front)?;
    let end = prefix_end(alloc, prefix.as_slice())?;
    let mut after = prefix.into_vec();
    after.pop();
    Ok(KeyRange {
        after: Bytes::from_vec(after),
        end,
    })
}
