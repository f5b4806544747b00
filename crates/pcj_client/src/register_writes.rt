ghost use Rattle.std.specs.Prelude.{◌≡◌, ◌<◌, ◌^◌, ◌++◌, ◌∷◌, length, Some, IfOk, OnOk};
ghost use Rattle.pcj_key.specs.Key as parts;
ghost use Rattle.pcj_encode.specs.declared.key_name.KeyName.TheVariants as row;
ghost use Rattle.pcj_encode.specs.declared.task_name.TaskName.TheVariants as task;
ghost use Rattle.pcj_encode.specs.Name.{key_of, registration_part};
ghost use Rattle.pcj_tree.specs.Stored.{slot_part};
ghost use Rattle.pcj_rows.specs.Plans.{nodes_writes, pattern_writes, put_mark, put_value, registration_writes};
ghost use Rattle.pcj_rows.specs.Registrations.{registration_value, value_of};

use crate::writes::put_mark;
use pcj_algebra::TriplePattern;
use pcj_encode::{KeyName, TaskName, write_key};
use pcj_key::join_parts;
use pcj_table::Write;
use pcj_term::{Bytes, Items, Memory, TryClone};
use pcj_tree::{Node, NodeKind, Tree, push_slot, store_tree};
use std::alloc::Global;

/// The writes of a registration: the rows of its name and of its query, and for each node that is a pattern its row and its
/// task.
pub(crate) fn register_writes(
    alloc: Global,
    registration: u64,
    name: &Bytes,
    tree: &Tree,
) -> Result<Items<Write>, Memory>
    requires { length tree.now.nodes < 2 ^ 16 }
    ensures { IfOk result (λ writes. writes ≡ registration_writes registration name.now tree.now) }
{
    let mut writes = Vec::new(alloc);
    writes.push(name_write(alloc, registration, name)?)?;
    writes.push(query_write(alloc, registration, name, tree)?)?;
    add_nodes(alloc, registration, tree.nodes.as_slice(), &mut writes)?;
    Ok(Items::from_vec(writes))
}

/// The key of a name's row.
pub(crate) fn name_key(alloc: Global, name: &Bytes) -> Result<Bytes, Memory>
    ensures { IfOk result (λ key. key ≡ key_of (row.Name name.now)) }
{
    let name = KeyName::Name(name.try_clone(alloc)?);
    write_key(alloc, &name)
}

/// The write of its row, which has the registration's number.
fn name_write(alloc: Global, registration: u64, name: &Bytes) -> Result<Write, Memory>
    ensures { IfOk result (λ write. write ≡ put_value (key_of (row.Name name.now)) (registration_part registration)) }
{
    let key = name_key(alloc, name)?;
    let value = Bytes::from_slice(alloc, &registration.to_be_bytes())?;
    Ok(put_value(key, value))
}

/// The write of the query's row.
fn query_write(alloc: Global, registration: u64, name: &Bytes, tree: &Tree) -> Result<Write, Memory>
    ensures { IfOk result (λ write. write ≡ put_value (key_of (row.Registration registration)) (registration_value name.now tree.now)) }
{
    let key = write_key(alloc, &KeyName::Registration(registration))?;
    let value = query_value(alloc, name, tree)?;
    Ok(put_value(key, value))
}

/// Its name and its stored tree.
fn query_value(alloc: Global, name: &Bytes, tree: &Tree) -> Result<Bytes, Memory>
    ensures { IfOk result (λ value. value ≡ registration_value name.now tree.now) }
{
    let stored = store_tree(alloc, tree)?;
    let name = name.try_clone(alloc)?;
    join_parts(alloc, &[name, stored])
}

/// Adds the writes of nodes, which are numbered from 1 on.
fn add_nodes(
    alloc: Global,
    registration: u64,
    nodes: &[Node],
    writes: &mut Vec<Write>,
) -> Result<(), Memory>
    requires { length nodes.now < 2 ^ 16 }
    ensures { OnOk result (writes.new.items ≡ writes.old.items ++ nodes_writes registration 1 nodes.now) }
{
    let mut number = 0;
    for node in nodes {
        number += 1;
        add_node(alloc, registration, number, node, writes)?;
    }
    Ok(())
}

/// Adds those of a node, where it is a pattern.
fn add_node(
    alloc: Global,
    registration: u64,
    number: u16,
    node: &Node,
    writes: &mut Vec<Write>,
) -> Result<(), Memory>
    ensures { OnOk result (writes.new.items ≡ writes.old.items ++ pattern_writes registration number (value_of (Some node.now))) }
{
    let NodeKind::Pattern(of) = &node.kind else {
        return Ok(());
    };
    let value = pattern_value(alloc, of, node.order.as_slice())?;
    writes.push(pattern_write(alloc, registration, number, value)?)?;
    writes.push(task_write(alloc, registration, number)?)?;
    Ok(())
}

/// The slots of a pattern, then the order of its node.
fn pattern_value(alloc: Global, of: &TriplePattern, order: &[Bytes]) -> Result<Bytes, Memory>
    ensures { IfOk result (λ value. value ≡ parts.key_of (slot_part of.now.subject ∷ slot_part of.now.predicate ∷ slot_part of.now.object ∷ order.now)) }
{
    let mut parts = Items::new(alloc);
    push_slot(alloc, &mut parts, &of.subject)?;
    push_slot(alloc, &mut parts, &of.predicate)?;
    push_slot(alloc, &mut parts, &of.object)?;
    push_names(alloc, &mut parts, order)?;
    join_parts(alloc, parts.as_slice())
}

fn push_names(alloc: Global, parts: &mut Items<Bytes>, names: &[Bytes]) -> Result<(), Memory>
    ensures { OnOk result (parts.new ≡ parts.old ++ names.now) }
{
    for name in names {
        parts.push(name.try_clone(alloc)?)?;
    }
    Ok(())
}

/// The write of a pattern's row.
fn pattern_write(alloc: Global, registration: u64, node: u16, value: Bytes) -> Result<Write, Memory>
    ensures { IfOk result (λ write. write ≡ put_value (key_of (row.Pattern registration node)) value) }
{
    let key = write_key(alloc, &KeyName::Pattern { registration, node })?;
    Ok(put_value(key, value))
}

/// The write of the task that looks at the triples that are there already.
fn task_write(alloc: Global, registration: u64, node: u16) -> Result<Write, Memory>
    ensures { IfOk result (λ write. write ≡ put_mark (key_of (row.Task (task.Backfill registration node)))) }
{
    let name = KeyName::Task(TaskName::Backfill { registration, node });
    let key = write_key(alloc, &name)?;
    Ok(put_mark(alloc, key))
}

fn put_value(key: Bytes, value: Bytes) -> Write
    ensures { result ≡ put_value key value }
{
    Write {
        key,
        value: Some(value),
    }
}
