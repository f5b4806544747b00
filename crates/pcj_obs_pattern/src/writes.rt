ghost use Rattle.std.specs.Prelude.{◌≡◌, [], ◌∷◌, IfOk};
ghost use Rattle.pcj_notify.specs.Plans.{advance, finish};

use pcj_notify::Task;
use pcj_table::Write;
use pcj_term::{Items, Memory};
use std::alloc::Global;

/// The writes of a task that moves on to this key and adds nothing.
pub(crate) fn moved(alloc: Global, task: &Task, next: &[u8]) -> Result<Items<Write>, Memory>
    ensures { IfOk result (λ writes. writes ≡ advance task.now next.now ∷ []) }
{
    alone(alloc, task.advance(alloc, next)?)
}

/// The writes of a task that is done.
pub(crate) fn ended(alloc: Global, task: &Task) -> Result<Items<Write>, Memory>
    ensures { IfOk result (λ writes. writes ≡ finish task.now ∷ []) }
{
    alone(alloc, task.finish(alloc)?)
}

fn alone(alloc: Global, write: Write) -> Result<Items<Write>, Memory>
    ensures { IfOk result (λ writes. writes ≡ write ∷ []) }
{
    let mut writes = Items::new(alloc);
    writes.push(write)?;
    Ok(writes)
}
