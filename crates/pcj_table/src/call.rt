ghost use Rattle.std.specs.Prelude.{◌≡◌, [], is_err, IsOk, IfErr};
ghost use Rattle.pcj_io.specs.Calls.{IsNextCall};
ghost use Rattle.pcj_table.specs.Calls.{HasTableCause};
ghost use Rattle.pcj_table.specs.declared.error.TableError.TheVariants.{Failed};

use crate::TableError;
use pcj_io::FailingCalls;

/// Counts one call of a table in memory, which answers `Failed` where its number was chosen.
pub fn begin_call(calls: &mut FailingCalls) -> Result<(), TableError>
    ensures next { IsNextCall calls.old calls.new (is_err result) }
    ensures cause { HasTableCause calls.old.faults calls.new.faults result }
    ensures failed { IfErr result (λ e. e ≡ Failed) }
    ensures never { calls.old.failing ≡ [] → IsOk result }
{
    if calls.next_fails() {
        return Err(TableError::Failed);
    }
    Ok(())
}
