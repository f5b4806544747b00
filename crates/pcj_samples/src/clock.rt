//! Tables whose clock is set before the first number is granted.

ghost use Rattle.std.specs.Prelude.{◌≤◌, ◌^◌, OnOk};
ghost use Rattle.pcj_samples.specs.Fresh.{IsFresh};

use pcj_encode::{KeyName, write_key};
use pcj_table::{Mutated, Plain, RowTable, TableError, Update};
use pcj_term::Bytes;
use std::alloc::Global;

/// Sets the number that is granted first.
pub(crate) fn set_first<T: RowTable>(
    alloc: Global,
    table: &mut T,
    number: u64,
) -> Result<(), TableError>
    requires fresh { IsFresh (T.rows table.old) }
    requires first { 1 ≤ number }
    requires last { number ≤ 2 ^ 48 }
    ensures { OnOk result (IsFresh (T.rows table.new)) }
{
    let key = write_key(alloc, &KeyName::Clock)?;
    let plain = Plain {
        seq: number,
        value: Some(Bytes::new(alloc)),
    };
    match table.mutate(key.as_slice(), &[], &[Update::SetPlain(plain)])? {
        Mutated::Applied => Ok(()),
        Mutated::Rejected(_row) => unreachable!(),
    }
}
