ghost use Rattle.std.specs.Prelude.{◌≡◌, ◌⊎◌, IfOk, OnErr};
ghost use Rattle.pcj_table.specs.Calls.{counted, HasTableCause};
ghost use Rattle.pcj_actor.specs.Progress.{IsPut, plain_act};

use pcj_mvcc::Act;
use pcj_table::{Cond, Mutated, Plain, RowTable, TableError, Update};
use pcj_term::{Bytes, Items, Memory, TryClone};
use std::alloc::Global;

/// Sets a plain value where none of its number or a later one stands.
fn put_act(alloc: Global, plain: &Plain) -> Result<Act, Memory>
    ensures { IfOk result (λ act. act ≡ plain_act plain.now) }
{
    let seq = plain.seq;
    let plain = plain.try_clone(alloc)?;
    Ok(Act {
        conds: Items::from_vec(vec![in alloc; Cond::PlainBelow(seq)]?),
        updates: Items::from_vec(vec![in alloc; Update::SetPlain(plain)]?),
    })
}

/// Writes a plain value where none of its number or a later one stands, and tells whether it did.
pub(crate) fn put_plain<T: RowTable>(
    alloc: Global,
    table: &mut T,
    key: &Bytes,
    plain: &Plain,
) -> Result<bool, TableError>
    ensures done { IfOk result (λ applied. IsPut applied key.now plain.now (T.rows table.old) (T.rows table.new)) }
    ensures err { OnErr result (T.rows table.new ≡ T.rows table.old) }
    ensures cause { HasTableCause (T.failures table.old) (T.failures table.new) result }
    ensures most { (T.made table.new ≡ T.made table.old) ⊎ (T.made table.new ≡ counted (T.made table.old)) }
{
    let act = put_act(alloc, plain)?;
    match act.carry_out(table, key.as_slice())? {
        Mutated::Applied => Ok(true),
        Mutated::Rejected(_) => Ok(false),
    }
}
