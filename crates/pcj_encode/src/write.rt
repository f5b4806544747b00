ghost use Rattle.std.specs.Prelude.{◌≡◌, ◌∷◌, IfOk, codes};
ghost use Rattle.pcj_encode.specs.declared.key_name.KeyName.TheVariants as row;
ghost use Rattle.pcj_encode.specs.Name.{parts_of, triple_parts, task_parts, key_of};

use crate::parts::Parts;
use crate::tag::Tag;
use crate::task_tag::TaskTag;
use crate::{KeyName, Order, TaskName};
use pcj_key::join_parts;
use pcj_term::{Bytes, Memory, Triple};
use std::alloc::Global;

/// The key of a row: that of its parts, where numbers are written with the highest byte first. For a valid name
/// it is the key of no other one, and `read_key` gives the name back; `one_key_for_each_name` is the proof.
pub fn write_key(alloc: Global, name: &KeyName) -> Result<Bytes, Memory>
    ensures { IfOk result (λ key. key ≡ key_of name.now) }
{
    let parts = parts_of(alloc, name)?;
    join_parts(alloc, parts.as_slice())
}

/// The key of a triple's row in an order.
pub fn triple_key(alloc: Global, order: Order, triple: &Triple) -> Result<Bytes, Memory>
    ensures { IfOk result (λ key. key ≡ key_of (row.Triple order triple.now)) }
{
    let parts = triple_parts(alloc, order, triple)?;
    join_parts(alloc, parts.as_slice())
}

fn parts_of(alloc: Global, name: &KeyName) -> Result<Parts, Memory>
    ensures { IfOk result (λ parts. parts ≡ parts_of name.now) }
{
    match name {
        KeyName::Clock => Parts::of(alloc, Tag::Clock),
        KeyName::Triple { order, triple } => triple_parts(alloc, *order, triple),
        KeyName::Node {
            registration,
            node,
            cells,
        } => Parts::of(alloc, Tag::Node)?
            .registration(*registration)?
            .node(*node)?
            .cells(cells.as_slice()),
        KeyName::Group {
            registration,
            cells,
        } => Parts::of(alloc, Tag::Group)?
            .registration(*registration)?
            .cells(cells.as_slice()),
        KeyName::Member {
            registration,
            cells,
            term,
        } => Parts::of(alloc, Tag::Member)?
            .registration(*registration)?
            .cells(cells.as_slice())?
            .bytes(term.as_slice()),
        KeyName::Registration(registration) => {
            Parts::of(alloc, Tag::Registration)?.registration(*registration)
        }
        KeyName::Name(name) => Parts::of(alloc, Tag::Name)?.bytes(name.as_slice()),
        KeyName::Pattern { registration, node } => Parts::of(alloc, Tag::Pattern)?
            .registration(*registration)?
            .node(*node),
        KeyName::Task(task) => task_parts(alloc, task),
        KeyName::Export {
            registration,
            cells,
        } => Parts::of(alloc, Tag::Export)?
            .registration(*registration)?
            .cells(cells.as_slice()),
    }
}

fn triple_parts(alloc: Global, order: Order, triple: &Triple) -> Result<Parts, Memory>
    ensures { IfOk result (λ parts. parts ≡ triple_parts order triple.now) }
{
    match order {
        Order::Spo => Parts::of(alloc, Tag::Spo)?
            .term(&triple.subject)?
            .term(&triple.predicate)?
            .term(&triple.object),
        Order::Pos => Parts::of(alloc, Tag::Pos)?
            .term(&triple.predicate)?
            .term(&triple.object)?
            .term(&triple.subject),
        Order::Osp => Parts::of(alloc, Tag::Osp)?
            .term(&triple.object)?
            .term(&triple.subject)?
            .term(&triple.predicate),
    }
}

fn task_parts(alloc: Global, task: &TaskName) -> Result<Parts, Memory>
    ensures { IfOk result (λ parts. parts ≡ codes "n" ∷ task_parts task.now) }
{
    let parts = Parts::of(alloc, Tag::Task)?;
    match task {
        TaskName::Triple(triple) => parts
            .task(TaskTag::Triple)?
            .term(&triple.subject)?
            .term(&triple.predicate)?
            .term(&triple.object),
        TaskName::Backfill { registration, node } => parts
            .task(TaskTag::Backfill)?
            .registration(*registration)?
            .node(*node),
        TaskName::Row {
            registration,
            node,
            cells,
        } => parts
            .task(TaskTag::Row)?
            .registration(*registration)?
            .node(*node)?
            .cells(cells.as_slice()),
        TaskName::Export {
            registration,
            cells,
        } => parts
            .task(TaskTag::Export)?
            .registration(*registration)?
            .cells(cells.as_slice()),
    }
}
