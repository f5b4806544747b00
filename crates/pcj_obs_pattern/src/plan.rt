ghost use Rattle.std.specs.Prelude.{IfOk};
ghost use Rattle.pcj_notify.specs.declared.ask.Ask.{Ask};
ghost use Rattle.pcj_obs_pattern.specs.Plan.{IsPatternAsk};

use crate::backfill::plan_backfill;
use crate::triple_task::plan_triple;
use pcj_encode::TaskName;
use pcj_notify::{Answer, Ask, Task};
use pcj_term::{Items, Memory};
use std::alloc::Global;

/// What is asked next for the task of a triple or of a backfill, after these answers to what was asked before. `Memory`
/// where there is none left for it.
pub fn plan_pattern(alloc: Global, task: &Task, answers: &Items<Answer>) -> Result<Ask, Memory>
    requires { (ask : Ask) × IsPatternAsk task.now answers.now ask }
    ensures { IfOk result (λ ask. IsPatternAsk task.now answers.now ask) }
{
    match &task.name {
        TaskName::Triple(triple) => plan_triple(alloc, task, triple, answers.as_slice()),
        TaskName::Backfill { registration, node } => {
            plan_backfill(alloc, task, *registration, *node, answers.as_slice())
        }
        _ => unreachable!(),
    }
}
