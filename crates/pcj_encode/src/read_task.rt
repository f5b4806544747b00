ghost use Rattle.std.specs.Prelude.{◌≡◌, IfOk};
ghost use Rattle.pcj_encode.specs.Reading.{backfill_of, tagged_task_of, task_of};

use crate::fields::{node_cells, numbers_first, registered_cells, triple_of};
use crate::task_tag::TaskTag;
use crate::{Order, TaskName};
use pcj_term::{Bytes, Memory};
use std::alloc::Global;

/// The task that has these parts after the tag of tasks.
pub(crate) fn task_of(alloc: Global, parts: &[Bytes]) -> Result<Option<TaskName>, Memory>
    ensures { IfOk result (λ found. found ≡ task_of parts.now) }
{
    let [part, fields @ ..] = parts else {
        return Ok(None);
    };
    match TaskTag::read(part.as_slice()) {
        Some(tag) => tagged_task_of(alloc, tag, fields),
        None => Ok(None),
    }
}

fn tagged_task_of(alloc: Global, tag: TaskTag, fields: &[Bytes]) -> Result<Option<TaskName>, Memory>
    ensures { IfOk result (λ found. found ≡ tagged_task_of tag fields.now) }
{
    match tag {
        TaskTag::Triple => Ok(triple_of(alloc, Order::Spo, fields)?.map(TaskName::Triple)),
        TaskTag::Backfill => Ok(backfill_of(fields)),
        TaskTag::Row => {
            let found = node_cells(alloc, fields)?;
            Ok(found.map(|(registration, node, cells)| TaskName::Row {
                registration,
                node,
                cells,
            }))
        }
        TaskTag::Export => {
            let found = registered_cells(alloc, fields)?;
            Ok(found.map(|(registration, cells)| TaskName::Export {
                registration,
                cells,
            }))
        }
    }
}

fn backfill_of(fields: &[Bytes]) -> Option<TaskName>
    ensures { result ≡ backfill_of fields.now }
{
    match numbers_first(fields) {
        Some((registration, node, [])) => Some(TaskName::Backfill { registration, node }),
        _ => None,
    }
}
