ghost use Rattle.std.specs.Prelude.{◌≡◌, ◌≢◌, Some, IfOk, IfSome, IfNone};
ghost use Rattle.pcj_encode.specs.declared.task_name.TaskName.{TaskName};
ghost use Rattle.pcj_encode.specs.declared.key_name.KeyName.TheVariants as row;
ghost use Rattle.pcj_notify.specs.Task.{ReadsTask};

use crate::Task;
use pcj_encode::{KeyName, TaskName, read_key};
use pcj_term::{Bytes, Memory};
use std::alloc::Global;

/// The task that the key of its row names, with this cursor and at this start, or `None` where the key names no task. The
/// cursor is copied as it is. `Memory` where there is none left.
pub fn read_task(
    alloc: Global,
    key: &[u8],
    cursor: &[u8],
    start: u64,
) -> Result<Option<Task>, Memory>
    ensures { IfOk result (λ found. ReadsTask key.now cursor.now start found) }
{
    let Some(name) = task_named(read_key(alloc, key)?) else {
        return Ok(None);
    };
    let cursor = Bytes::from_slice(alloc, cursor)?;
    Ok(Some(Task {
        name,
        cursor,
        start,
    }))
}

/// The task whose row this name is.
fn task_named(name: Option<KeyName>) -> Option<TaskName>
    ensures some { IfSome result (λ task. name ≡ Some (row.Task task)) }
    ensures none { IfNone result ((task : TaskName) → name ≢ Some (row.Task task)) }
{
    match name {
        Some(KeyName::Task(task)) => Some(task),
        _ => None,
    }
}
