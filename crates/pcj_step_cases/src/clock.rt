ghost use Rattle.std.specs.Prelude.{◌≡◌, ◌≤◌, ◌^◌, OnOk, OnErr};
ghost use Rattle.pcj_oracle.specs.Clock.{IsClock, stored_number};

use crate::show::{show_number, show_table_error};
use pcj_case_lines::{Answer, Unanswered};
use pcj_oracle::Oracle;
use pcj_table::{Mutated, Plain, RowTable, TableError, Update};
use pcj_term::Bytes;
use std::alloc::Global;

/// The first number that is no timestamp.
const END: u64 = 281_474_976_710_656;

/// The key of the clock's row.
const CLOCK_KEY: [u8; 2] = *b"z\0";

/// Leaves so many numbers that aren't granted. The oracle has crashed.
pub(crate) fn leave_numbers<T: RowTable>(
    alloc: Global,
    oracle: &mut Oracle,
    table: &mut T,
    out: &mut Answer,
    left: u64,
) -> Result<(), Unanswered>
    requires clock { IsClock oracle.old (T.rows table.old) }
    requires small { left ≤ 255 }
    ensures { IsClock oracle.new (T.rows table.new) }
{
    oracle.crash();
    match set_number(alloc, table, END - left) {
        Ok(()) => show_number(out, "left", left),
        Err(error) => show_table_error(out, error),
    }
}

/// Sets the first number that was never granted.
fn set_number<T: RowTable>(alloc: Global, table: &mut T, number: u64) -> Result<(), TableError>
    ensures ok { OnOk result (stored_number (T.rows table.new) ≡ number) }
    ensures err { OnErr result (T.rows table.new ≡ T.rows table.old) }
{
    let plain = Plain {
        seq: number,
        value: Some(Bytes::new(alloc)),
    };
    match table.mutate(&CLOCK_KEY, &[], &[Update::SetPlain(plain)])? {
        Mutated::Applied => Ok(()),
        Mutated::Rejected(_row) => unreachable!(),
    }
}
