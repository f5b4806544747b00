use crate::name::spell_task;
use pcj_case_lines::{Answer, Unanswered, number};
use pcj_notify::{Task, read_task};
use pcj_term::Bytes;
use std::alloc::Global;

/// `read_task KEY CURSOR START`: the task whose row has the key, or `none`.
pub(crate) fn read_case(
    alloc: Global,
    out: &mut Answer,
    arguments: &[Bytes],
) -> Result<(), Unanswered> {
    let [key, cursor, start] = arguments else {
        return Err(Unanswered::NoCase);
    };
    let start = number(start)?;
    let task = read_task(alloc, key.as_slice(), cursor.as_slice(), start)?;
    show_task(out, task.as_ref())
}

/// Adds the cursor, the start and the name of a task, or `none`.
fn show_task(out: &mut Answer, task: Option<&Task>) -> Result<(), Unanswered> {
    match task {
        Some(task) => {
            out.bytes(task.cursor.as_slice())?;
            out.number(task.start)?;
            spell_task(out, &task.name)
        }
        None => out.word("none"),
    }
}
