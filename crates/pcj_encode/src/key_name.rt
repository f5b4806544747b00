use crate::{Order, TaskName};
use pcj_term::{Bytes, Items, Memory, Triple, TryClone};
use std::alloc::Global;

/// What a row of the store is for. Cells, and the term of a member, are printed terms. A node is a number in
/// the tree of a registered query.
#[derive(Drop)]
pub enum KeyName {
    /// The clock, from which timestamps are granted.
    Clock,
    /// A triple, in one of its three orders.
    Triple {
        order: Order,
        triple: Triple,
    },
    /// A row of a node, its cells in the node's order.
    Node {
        registration: u64,
        node: u16,
        cells: Items<Bytes>,
    },
    /// A group, by the cells of its key, of which there is one at least.
    Group {
        registration: u64,
        cells: Items<Bytes>,
    },
    /// A term that a group has counted.
    Member {
        registration: u64,
        cells: Items<Bytes>,
        term: Bytes,
    },
    /// A registered query, by its number.
    Registration(u64),
    /// The name of a registered query.
    Name(Bytes),
    /// A triple pattern of a registered query, by its node.
    Pattern {
        registration: u64,
        node: u16,
    },
    /// A task that is still to be done.
    Task(TaskName),
    /// An exported result row or group.
    Export {
        registration: u64,
        cells: Items<Bytes>,
    },
}

impl TryClone for KeyName {
    fn try_clone(&self, alloc: Global) -> Result<KeyName, Memory> {
        match self {
            KeyName::Clock => Ok(KeyName::Clock),
            KeyName::Triple { order, triple } => Ok(KeyName::Triple {
                order: *order,
                triple: triple.try_clone(alloc)?,
            }),
            KeyName::Node {
                registration,
                node,
                cells,
            } => Ok(KeyName::Node {
                registration: *registration,
                node: *node,
                cells: cells.try_clone(alloc)?,
            }),
            KeyName::Group {
                registration,
                cells,
            } => Ok(KeyName::Group {
                registration: *registration,
                cells: cells.try_clone(alloc)?,
            }),
            KeyName::Member {
                registration,
                cells,
                term,
            } => Ok(KeyName::Member {
                registration: *registration,
                cells: cells.try_clone(alloc)?,
                term: term.try_clone(alloc)?,
            }),
            KeyName::Registration(registration) => Ok(KeyName::Registration(*registration)),
            KeyName::Name(name) => Ok(KeyName::Name(name.try_clone(alloc)?)),
            KeyName::Pattern { registration, node } => Ok(KeyName::Pattern {
                registration: *registration,
                node: *node,
            }),
            KeyName::Task(task) => Ok(KeyName::Task(task.try_clone(alloc)?)),
            KeyName::Export {
                registration,
                cells,
            } => Ok(KeyName::Export {
                registration: *registration,
                cells: cells.try_clone(alloc)?,
            }),
        }
    }
}
