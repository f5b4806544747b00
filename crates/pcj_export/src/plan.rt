ghost use Rattle.std.specs.Prelude.{◌≡◌, ◌∷◌, [], IfOk};
ghost use Rattle.pcj_encode.specs.declared.key_name.KeyName.TheVariants as row;
ghost use Rattle.pcj_encode.specs.Name.{key_of};
ghost use Rattle.pcj_notify.specs.declared.ask.Ask.{Ask};
ghost use Rattle.pcj_notify.specs.declared.ask.Ask.TheVariants as ask;
ghost use Rattle.pcj_notify.specs.Plans.{finish};
ghost use Rattle.pcj_export.specs.Plan.{IsExportAsk, IsResultAsk, line_of};

use pcj_encode::{KeyName, TaskName, write_key};
use pcj_notify::{Answer, Ask, Task};
use pcj_term::{Bytes, Items, Memory, TryClone};
use pcj_tree::Tree;
use std::alloc::Global;

/// What is asked next for an export, by the answers so far: that the line of the result row is written, and then the end of
/// the task. That the tree is one of result rows is all that is needed of it, since the task's name has the cells. `Memory`
/// where there is none left for the ask.
pub fn plan_export(
    alloc: Global,
    task: &Task,
    tree: &Tree,
    answers: &Items<Answer>,
) -> Result<Ask, Memory>
    requires { (ask : Ask) × IsExportAsk task.now tree.now answers.now ask }
    ensures { IfOk result (λ ask. IsExportAsk task.now tree.now answers.now ask) }
{
    match &task.name {
        TaskName::Export {
            registration,
            cells,
        } => plan_result(alloc, task, *registration, cells, answers.as_slice()),
        _ => unreachable!(),
    }
}

/// What is asked next for the export of a result row.
fn plan_result(
    alloc: Global,
    task: &Task,
    registration: u64,
    cells: &Items<Bytes>,
    answers: &[Answer],
) -> Result<Ask, Memory>
    requires { (ask : Ask) × IsResultAsk task.now registration cells.now answers.now ask }
    ensures { IfOk result (λ ask. IsResultAsk task.now registration cells.now answers.now ask) }
{
    match answers {
        [] => write_line(alloc, registration, cells),
        [Answer::PlainDone] => end_task(alloc, task),
        _ => unreachable!(),
    }
}

/// The line of the cells is to be written on the row of their export.
fn write_line(alloc: Global, registration: u64, cells: &Items<Bytes>) -> Result<Ask, Memory>
    ensures { IfOk result (λ asked. asked ≡ ask.Plain (key_of (row.Export registration cells.now)) (line_of cells.now)) }
{
    let key = export_key(alloc, registration, cells)?;
    let value = line_of(alloc, cells.as_slice())?;
    Ok(Ask::Plain { key, value })
}

/// The key of the row of an export.
fn export_key(alloc: Global, registration: u64, cells: &Items<Bytes>) -> Result<Bytes, Memory>
    ensures { IfOk result (λ key. key ≡ key_of (row.Export registration cells.now)) }
{
    let cells = cells.try_clone(alloc)?;
    key_of(
        alloc,
        KeyName::Export {
            registration,
            cells,
        },
    )
}

/// The key of the row of this name, which is let go.
fn key_of(alloc: Global, name: KeyName) -> Result<Bytes, Memory>
    ensures { IfOk result (λ key. key ≡ key_of name) }
{
    write_key(alloc, &name)
}

/// The cells, with a TAB between two of them.
fn line_of(alloc: Global, cells: &[Bytes]) -> Result<Bytes, Memory>
    ensures { IfOk result (λ line. line ≡ line_of cells.now) }
{
    let mut line = Bytes::new(alloc);
    for (at, cell) in cells.iter().enumerate() {
        if at > 0 {
            line.push(b'\t')?;
        }
        line.extend_from_slice(cell.as_slice())?;
    }
    Ok(line)
}

/// The task is done.
fn end_task(alloc: Global, task: &Task) -> Result<Ask, Memory>
    ensures { IfOk result (λ asked. asked ≡ ask.Commit (finish task.now ∷ [])) }
{
    let mut writes = Items::new(alloc);
    writes.push(task.finish(alloc)?)?;
    Ok(Ask::Commit(writes))
}
