ghost use Rattle.std.specs.Prelude.{◌≡◌, IfOk};
ghost use Rattle.pcj_encode.specs.Range.{patterns, range_of};
ghost use Rattle.pcj_notify.specs.declared.ask.Ask.{Ask};
ghost use Rattle.pcj_notify.specs.declared.ask.Ask.TheVariants.{Next};
ghost use Rattle.pcj_notify.specs.Plans.{beyond};
ghost use Rattle.pcj_obs_pattern.specs.Plan.{IsTripleAsk, MeetsRow};

use crate::meeting::meet;
use crate::row::read_row;
use crate::writes::ended;
use pcj_encode::pattern_range;
use pcj_notify::{Answer, Ask, Task};
use pcj_table::Pair;
use pcj_term::{Memory, Triple};
use std::alloc::Global;

/// What is asked for a triple's task: it meets one pattern after another.
pub(crate) fn plan_triple(
    alloc: Global,
    task: &Task,
    triple: &Triple,
    answers: &[Answer],
) -> Result<Ask, Memory>
    requires { (ask : Ask) × IsTripleAsk task.now triple.now answers.now ask }
    ensures { IfOk result (λ ask. IsTripleAsk task.now triple.now answers.now ask) }
{
    match answers {
        [] => next_pattern(alloc, task),
        [Answer::Stepped(None)] => Ok(Ask::Commit(ended(alloc, task)?)),
        [Answer::Stepped(Some(pair)), answers @ ..] => {
            meet_row(alloc, task, triple, pair, answers)
        }
        _ => unreachable!(),
    }
}

/// The first pattern after the cursor.
fn next_pattern(alloc: Global, task: &Task) -> Result<Ask, Memory>
    ensures { IfOk result (λ ask. ask ≡ Next (beyond task.now.cursor (range_of patterns))) }
{
    Ok(Ask::Next(task.beyond(alloc, pattern_range(alloc)?)?))
}

/// The pattern of this row meets the triple.
fn meet_row(
    alloc: Global,
    task: &Task,
    triple: &Triple,
    pair: &Pair,
    answers: &[Answer],
) -> Result<Ask, Memory>
    requires { (ask : Ask) × MeetsRow task.now triple.now pair.now answers.now ask }
    ensures { IfOk result (λ ask. MeetsRow task.now triple.now pair.now answers.now ask) }
{
    let row = read_row(alloc, pair.key.as_slice(), pair.value.as_slice())?;
    meet(alloc, task, pair.key.as_slice(), &row, triple, answers)
}
