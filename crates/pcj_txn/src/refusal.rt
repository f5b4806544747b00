ghost use Rattle.std.specs.Prelude.{◌≡◌, [], ◌∷◌, false, IfOk};
ghost use Rattle.std.specs.Option.{option_copied};
ghost use Rattle.pcj_table.specs.declared.cond.Cond.TheVariants.{NoLock, NoVersionFrom};
ghost use Rattle.pcj_table.specs.Row.{conds_hold, newest};
ghost use Rattle.pcj_txn.specs.Steps.{versions_from};
ghost use Rattle.pcj_txn.specs.Refusals.{Refuses};

use crate::TxnEvent;
use pcj_table::{Row, Version};
use pcj_term::{Bytes, Memory, TryClone};
use std::alloc::Global;

/// What stood in the way of the prewrite of a row: its lock, or else its newest version of the start timestamp or later.
pub(crate) fn refusal_of(
    alloc: Global,
    key: &Bytes,
    row: Row,
    start: u64,
) -> Result<TxnEvent, Memory>
    requires { conds_hold row (NoLock ∷ NoVersionFrom start ∷ []) ≡ false }
    ensures { IfOk result (λ event. Refuses key.now start row event) }
{
    let key = key.try_clone(alloc)?;
    let Row {
        lock,
        versions,
        plain: _plain,
    } = row;
    match lock {
        Some(lock) => Ok(TxnEvent::MetLock { key, lock }),
        None => match newest_from(versions.as_slice(), start) {
            Some(version) => Ok(TxnEvent::Conflict {
                key,
                commit: version.commit,
            }),
            None => unreachable!(),
        },
    }
}

/// The newest version with this commit timestamp or a later one.
fn newest_from(versions: &[Version], at: u64) -> Option<&Version>
    ensures { option_copied result ≡ newest (versions_from at versions.now) }
{
    versions.iter().rev().find(|version| version.commit >= at)
}
