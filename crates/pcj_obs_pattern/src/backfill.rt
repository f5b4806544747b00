ghost use Rattle.std.specs.Prelude.{◌≡◌, IfOk};
ghost use Rattle.pcj_patterns.specs.Serving.{rows_of};
ghost use Rattle.pcj_notify.specs.declared.ask.Ask.{Ask};
ghost use Rattle.pcj_notify.specs.declared.ask.Ask.TheVariants.{Next};
ghost use Rattle.pcj_notify.specs.Plans.{beyond};
ghost use Rattle.pcj_obs_pattern.specs.Plan.{IsBackfillAsk, GoesOver, MeetsTriple};
ghost use Rattle.pcj_obs_pattern.specs.Reading.{OverAt};

use crate::keys::{pattern_key, triple_of};
use crate::meeting::meet;
use crate::row::{PatternRow, read_value};
use crate::writes::ended;
use pcj_algebra::TriplePattern;
use pcj_notify::{Answer, Ask, Task};
use pcj_patterns::pattern_rows;
use pcj_table::Pair;
use pcj_term::{Bytes, Memory};
use std::alloc::Global;

/// What is asked for the task of a backfill: its pattern, which then meets one triple after another.
pub(crate) fn plan_backfill(
    alloc: Global,
    task: &Task,
    registration: u64,
    node: u16,
    answers: &[Answer],
) -> Result<Ask, Memory>
    requires { (ask : Ask) × IsBackfillAsk task.now registration node answers.now ask }
    ensures { IfOk result (λ ask. IsBackfillAsk task.now registration node answers.now ask) }
{
    match answers {
        [] => Ok(Ask::Get(pattern_key(alloc, registration, node)?)),
        [Answer::Got(Some(value)), answers @ ..] => {
            go_over(alloc, task, registration, node, value, answers)
        }
        _ => unreachable!(),
    }
}

/// The pattern whose row has this value goes over the triples.
fn go_over(
    alloc: Global,
    task: &Task,
    registration: u64,
    node: u16,
    value: &Bytes,
    answers: &[Answer],
) -> Result<Ask, Memory>
    requires { (ask : Ask) × GoesOver task.now registration node value.now answers.now ask }
    ensures { IfOk result (λ ask. GoesOver task.now registration node value.now answers.now ask) }
{
    let row = read_value(alloc, registration, node, value.as_slice())?;
    over_triples(alloc, task, &row, answers)
}

fn over_triples(
    alloc: Global,
    task: &Task,
    row: &PatternRow,
    answers: &[Answer],
) -> Result<Ask, Memory>
    requires { (ask : Ask) × OverAt task.now row.now answers.now ask }
    ensures { IfOk result (λ ask. OverAt task.now row.now answers.now ask) }
{
    match answers {
        [] => next_triple(alloc, task, &row.pattern),
        [Answer::Stepped(None)] => Ok(Ask::Commit(ended(alloc, task)?)),
        [Answer::Stepped(Some(pair)), answers @ ..] => {
            meet_triple(alloc, task, row, pair, answers)
        }
        _ => unreachable!(),
    }
}

/// The first triple of the pattern's range after the cursor.
fn next_triple(alloc: Global, task: &Task, pattern: &TriplePattern) -> Result<Ask, Memory>
    ensures { IfOk result (λ ask. ask ≡ Next (beyond task.now.cursor (rows_of pattern.now).1)) }
{
    let (_, range) = pattern_rows(alloc, pattern)?;
    Ok(Ask::Next(task.beyond(alloc, range)?))
}

/// The pattern meets the triple of this row.
fn meet_triple(
    alloc: Global,
    task: &Task,
    row: &PatternRow,
    pair: &Pair,
    answers: &[Answer],
) -> Result<Ask, Memory>
    requires { (ask : Ask) × MeetsTriple task.now row.now.registration row.now.node row.now.pattern row.now.order pair.now answers.now ask }
    ensures { IfOk result (λ ask. MeetsTriple task.now row.now.registration row.now.node row.now.pattern row.now.order pair.now answers.now ask) }
{
    let triple = triple_of(alloc, pair.key.as_slice())?;
    meet(alloc, task, pair.key.as_slice(), row, &triple, answers)
}
