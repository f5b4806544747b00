ghost use Rattle.std.specs.Prelude.{◌≡◌, ◌++◌, ◌∷◌, [], IfOk};
ghost use Rattle.pcj_encode.specs.declared.key_name.KeyName.TheVariants as row;
ghost use Rattle.pcj_encode.specs.Name.{key_of};
ghost use Rattle.pcj_notify.specs.Plans.{advance, beyond, finish, mark, result_writes, row_writes, task_key};

use crate::Task;
use pcj_encode::{KeyName, KeyRange, TaskName, write_key};
use pcj_table::Write;
use pcj_term::{Bytes, Items, Memory, TryClone};
use std::alloc::Global;

/// The key of a task's row. `Memory` where there is none left for it.
pub fn task_key(alloc: Global, name: &TaskName) -> Result<Bytes, Memory>
    ensures { IfOk result (λ key. key ≡ task_key name.now) }
{
    let name = name.try_clone(alloc)?;
    key_of(alloc, KeyName::Task(name))
}

impl Task {
    /// What of a range comes after the task's cursor: all of it where the cursor is empty.
    pub fn beyond(&self, alloc: Global, range: KeyRange) -> Result<KeyRange, Memory>
        ensures { IfOk result (λ left. left ≡ beyond self.now.cursor range) }
    {
        let KeyRange { after, end } = range;
        let after = match self.cursor.as_slice() {
            [] => after,
            cursor => Bytes::from_slice(alloc, cursor)?,
        };
        Ok(KeyRange { after, end })
    }

    /// The write that moves the task's cursor on to this key.
    pub fn advance(&self, alloc: Global, key: &[u8]) -> Result<Write, Memory>
        ensures { IfOk result (λ write. write ≡ advance self.now key.now) }
    {
        Ok(Write {
            key: task_key(alloc, &self.name)?,
            value: Some(Bytes::from_slice(alloc, key)?),
        })
    }

    /// The write that ends the task.
    pub fn finish(&self, alloc: Global) -> Result<Write, Memory>
        ensures { IfOk result (λ write. write ≡ finish self.now) }
    {
        Ok(Write {
            key: task_key(alloc, &self.name)?,
            value: None,
        })
    }
}

/// These writes with those of a row of a node, and of the task that tells the node's parent of it.
pub fn with_row(
    alloc: Global,
    writes: Items<Write>,
    registration: u64,
    node: u16,
    cells: &Items<Bytes>,
) -> Result<Items<Write>, Memory>
    ensures { IfOk result (λ all. all ≡ writes ++ row_writes registration node cells.now) }
{
    let mut all = with_node(alloc, writes, registration, node, cells)?;
    let cells = cells.try_clone(alloc)?;
    let task = TaskName::Row {
        registration,
        node,
        cells,
    };
    all.push(mark(alloc, KeyName::Task(task))?)?;
    Ok(all)
}

/// These writes with those of a row of a query's last node, and of the task that exports it.
pub fn with_result(
    alloc: Global,
    writes: Items<Write>,
    registration: u64,
    node: u16,
    cells: &Items<Bytes>,
) -> Result<Items<Write>, Memory>
    ensures { IfOk result (λ all. all ≡ writes ++ result_writes registration node cells.now) }
{
    let mut all = with_node(alloc, writes, registration, node, cells)?;
    let cells = cells.try_clone(alloc)?;
    let task = TaskName::Export {
        registration,
        cells,
    };
    all.push(mark(alloc, KeyName::Task(task))?)?;
    Ok(all)
}

/// These writes with that of a node's row.
fn with_node(
    alloc: Global,
    writes: Items<Write>,
    registration: u64,
    node: u16,
    cells: &Items<Bytes>,
) -> Result<Items<Write>, Memory>
    ensures { IfOk result (λ all. all ≡ writes ++ (mark (key_of (row.Node registration node cells.now)) ∷ [])) }
{
    let cells = cells.try_clone(alloc)?;
    let node = KeyName::Node {
        registration,
        node,
        cells,
    };
    let mut all = writes;
    all.push(mark(alloc, node)?)?;
    Ok(all)
}

/// The write of an empty value on the row of this name.
fn mark(alloc: Global, name: KeyName) -> Result<Write, Memory>
    ensures { IfOk result (λ write. write ≡ mark (key_of name)) }
{
    let key = key_of(alloc, name)?;
    Ok(Write {
        key,
        value: Some(Bytes::new(alloc)),
    })
}

/// The key of the row of this name, which is let go.
fn key_of(alloc: Global, name: KeyName) -> Result<Bytes, Memory>
    ensures { IfOk result (λ key. key ≡ key_of name) }
{
    write_key(alloc, &name)
}
