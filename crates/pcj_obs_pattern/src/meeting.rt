ghost use Rattle.std.specs.Prelude.{◌≡◌, [], ◌∷◌, IfOk, IsSome, Some};
ghost use Rattle.pcj_encode.specs.declared.key_name.KeyName.TheVariants as named;
ghost use Rattle.pcj_expr.specs.declared.mapping.Mapping.{Mapping};
ghost use Rattle.pcj_notify.specs.declared.answer.Answer.TheVariants.{Got};
ghost use Rattle.pcj_notify.specs.declared.ask.Ask.{Ask};
ghost use Rattle.pcj_notify.specs.declared.ask.Ask.TheVariants.{Commit};
ghost use Rattle.pcj_notify.specs.Plans.{advance, row_writes, unless_found};
ghost use Rattle.pcj_obs_pattern.specs.Reading.{MeetsAt, first_ask};
ghost use Rattle.pcj_obs_pattern.specs.Rows.{cells_of};

use crate::fields::cells_of;
use crate::keys::key_of;
use crate::row::PatternRow;
use crate::writes::moved;
use pcj_algebra::match_triple;
use pcj_encode::KeyName;
use pcj_expr::Mapping;
use pcj_notify::{Answer, Ask, Task, with_row};
use pcj_term::{Bytes, Memory, Triple};
use std::alloc::Global;

/// What is asked where a pattern meets a triple, after which the task moves on to this key.
pub(crate) fn meet(
    alloc: Global,
    task: &Task,
    next: &[u8],
    row: &PatternRow,
    triple: &Triple,
    answers: &[Answer],
) -> Result<Ask, Memory>
    requires { (ask : Ask) × MeetsAt task.now next.now row.now triple.now answers.now ask }
    ensures { IfOk result (λ ask. MeetsAt task.now next.now row.now triple.now answers.now ask) }
{
    match answers {
        [] => first_ask(
            alloc,
            task,
            next,
            row,
            match_triple(alloc, &row.pattern, triple)?,
        ),
        [Answer::Got(found)] => settle(alloc, task, next, row, triple, found),
        _ => unreachable!(),
    }
}

/// What is asked after it is seen what the match's row has.
fn settle(
    alloc: Global,
    task: &Task,
    next: &[u8],
    row: &PatternRow,
    triple: &Triple,
    found: &Option<Bytes>,
) -> Result<Ask, Memory>
    requires { (ask : Ask) × MeetsAt task.now next.now row.now triple.now (Got found.now ∷ []) ask }
    ensures { IfOk result (λ ask. MeetsAt task.now next.now row.now triple.now (Got found.now ∷ []) ask) }
{
    let mapping = match_triple(alloc, &row.pattern, triple)?;
    last_ask(alloc, task, next, row, mapping, found)
}

/// A match's row is looked for, and without a match the task moves on.
fn first_ask(
    alloc: Global,
    task: &Task,
    next: &[u8],
    row: &PatternRow,
    mapping: Option<Mapping>,
) -> Result<Ask, Memory>
    ensures { IfOk result (λ ask. ask ≡ first_ask task.now next.now row.now mapping) }
{
    match mapping {
        Some(mapping) => Ok(Ask::Get(key_of(alloc, node_row(alloc, row, &mapping)?)?)),
        None => Ok(Ask::Commit(moved(alloc, task, next)?)),
    }
}

/// The task moves on, and the match's row is added where it wasn't found.
fn last_ask(
    alloc: Global,
    task: &Task,
    next: &[u8],
    row: &PatternRow,
    mapping: Option<Mapping>,
    found: &Option<Bytes>,
) -> Result<Ask, Memory>
    requires { IsSome mapping }
    ensures { (of : Mapping) → mapping ≡ Some of → IfOk result (λ ask. ask ≡ Commit (advance task.now next.now ∷ unless_found found.now (row_writes row.now.registration row.now.node (cells_of row.now.order of)))) }
{
    let writes = moved(alloc, task, next)?;
    match (mapping, found) {
        (Some(mapping), None) => {
            let cells = cells_of(alloc, row.order.as_slice(), &mapping)?;
            Ok(Ask::Commit(with_row(alloc, writes, row.registration, row.node, &cells)?))
        }
        (Some(_), Some(_)) => Ok(Ask::Commit(writes)),
        (None, _) => unreachable!(),
    }
}

/// The name of the row of a match.
fn node_row(alloc: Global, row: &PatternRow, mapping: &Mapping) -> Result<KeyName, Memory>
    ensures { IfOk result (λ name. name ≡ named.Node row.now.registration row.now.node (cells_of row.now.order mapping.now)) }
{
    let cells = cells_of(alloc, row.order.as_slice(), mapping)?;
    Ok(KeyName::Node {
        registration: row.registration,
        node: row.node,
        cells,
    })
}
