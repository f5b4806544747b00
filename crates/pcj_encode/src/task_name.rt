use pcj_term::{Bytes, Items, Memory, Triple, TryClone};
use std::alloc::Global;

/// What a task is for. A node is a number in the tree of a registered query.
#[derive(Drop)]
pub enum TaskName {
    /// A new triple is to meet the registered patterns.
    Triple(Triple),
    /// A pattern of a new registration is to meet the triples that are there.
    Backfill {
        registration: u64,
        node: u16,
    },
    /// A row of a node is to reach the node's parent.
    Row {
        registration: u64,
        node: u16,
        cells: Items<Bytes>,
    },
    /// A result row or a group is to be exported.
    Export {
        registration: u64,
        cells: Items<Bytes>,
    },
}

impl TryClone for TaskName {
    fn try_clone(&self, alloc: Global) -> Result<TaskName, Memory> {
        match self {
            TaskName::Triple(triple) => Ok(TaskName::Triple(triple.try_clone(alloc)?)),
            TaskName::Backfill { registration, node } => Ok(TaskName::Backfill {
                registration: *registration,
                node: *node,
            }),
            TaskName::Row {
                registration,
                node,
                cells,
            } => Ok(TaskName::Row {
                registration: *registration,
                node: *node,
                cells: cells.try_clone(alloc)?,
            }),
            TaskName::Export {
                registration,
                cells,
            } => Ok(TaskName::Export {
                registration: *registration,
                cells: cells.try_clone(alloc)?,
            }),
        }
    }
}
