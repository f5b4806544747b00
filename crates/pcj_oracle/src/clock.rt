ghost use Rattle.std.specs.Prelude.{◌≡◌, ◌≤◌, ◌^◌, true, if◌then◌else◌, IfOk, OnErr};
ghost use Rattle.pcj_table.specs.Calls.{HasTableCause, counted};
ghost use Rattle.pcj_table.specs.Row.{is_plain_below};
ghost use Rattle.pcj_table.specs.Table.{row_at};
ghost use Rattle.pcj_oracle.specs.Clock.{clock_key, clock_number, stored_number, with_number, limit_after};

use pcj_table::{Cond, Mutated, Plain, Row, RowTable, TableError, Update};
use pcj_term::Bytes;
use std::alloc::Global;

/// The first number that is no timestamp.
pub const END: u64 = 281_474_976_710_656;

/// How many numbers are taken from the table at a time.
const BLOCK: u64 = 1_000;

/// The number that is granted first.
const FIRST: u64 = 1;

/// The key of the clock's row.
const CLOCK_KEY: [u8; 2] = *b"z\0";

/// The first number that was never granted, by the clock's row.
fn number_of(row: &Row) -> u64
    ensures { result ≡ clock_number row.now.plain }
{
    row.plain.as_ref().map_or(FIRST, |plain| plain.seq)
}

/// The first number that was never granted, read from the clock's row.
pub fn stored_number<T: RowTable>(table: &mut T) -> Result<u64, TableError>
    ensures number { IfOk result (λ number. number ≡ stored_number (T.rows table.old)) }
    ensures same { T.rows table.new ≡ T.rows table.old }
    ensures cause { HasTableCause (T.failures table.old) (T.failures table.new) result }
    ensures calls { T.made table.new ≡ counted (T.made table.old) }
{
    match table.get(&CLOCK_KEY)? {
        None => Ok(FIRST),
        Some(row) => Ok(number_of(&row)),
    }
}

/// Raises the first number that was never granted, and says whether it was: it isn't where the clock's row has this
/// number or a higher one.
pub fn raise_number<T: RowTable>(
    alloc: Global,
    table: &mut T,
    number: u64,
) -> Result<bool, TableError>
    ensures below { IfOk result (λ raised. raised ≡ is_plain_below number (row_at (T.rows table.old) clock_key).plain) }
    ensures ok { IfOk result (λ raised. T.rows table.new ≡ (if raised then with_number (T.rows table.old) number else T.rows table.old)) }
    ensures number { IfOk result (λ raised. raised ≡ true → stored_number (T.rows table.new) ≡ number) }
    ensures err { OnErr result (T.rows table.new ≡ T.rows table.old) }
    ensures cause { HasTableCause (T.failures table.old) (T.failures table.new) result }
    ensures calls { T.made table.new ≡ counted (T.made table.old) }
{
    let plain = Plain {
        seq: number,
        value: Some(Bytes::new(alloc)),
    };
    let conds = [Cond::PlainBelow(number)];
    match table.mutate(&CLOCK_KEY, &conds, &[Update::SetPlain(plain)])? {
        Mutated::Applied => Ok(true),
        Mutated::Rejected(_row) => Ok(false),
    }
}

/// The first number after the block that begins at a limit.
pub fn limit_after(limit: u64) -> u64
    requires { limit ≤ 2 ^ 48 }
    ensures { result ≡ limit_after limit }
{
    if limit < END - BLOCK {
        limit + BLOCK
    } else {
        END
    }
}
