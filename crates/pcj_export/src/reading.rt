ghost use Rattle.std.specs.Prelude.{◌≡◌, ◌≤◌, ◌+◌, ◌++◌, ◌^◌, option_to_list, IsPermutation, IsSorted, IfOk, OnOk};
ghost use Rattle.pcj_table.specs.Calls.{HasTableCause};
ghost use Rattle.pcj_table.specs.Table.{bytes_cmp, is_next_at, rows_that};
ghost use Rattle.pcj_export.specs.Lines.{AreExported, plain_value, rows_met, values_between};

use pcj_encode::{KeyRange, export_range};
use pcj_table::{Found, Plain, Row, RowTable, TableError};
use pcj_term::{Bytes, Items, Memory};
use std::alloc::Global;

/// A number above every timestamp.
const END: u64 = 281_474_976_710_656;

/// The exported lines of a registration, sorted by their bytes. Nothing is changed.
///
/// It makes one call of the table at most for each row of an export that has a lock or a value, and one more. It answers
/// `Failed` where one of them fails, and `Memory` where there is no room for what it reads.
pub fn read_answers<T: RowTable>(
    alloc: Global,
    table: &mut T,
    registration: u64,
) -> Result<Items<Bytes>, TableError>
    // Which lines are found, and that nothing is changed.
    ensures lines { IfOk result (λ lines. AreExported registration (T.rows table.old) lines) }
    ensures same { T.rows table.new ≡ T.rows table.old }

    // When an error comes, and the calls of the table.
    ensures cause { HasTableCause (T.failures table.old) (T.failures table.new) result }
    ensures calls { T.made table.new ≤ T.made table.old + rows_met registration (T.rows table.old) + 1 }
{
    let KeyRange { after, end } = export_range(alloc, registration)?;
    let lines = read_between(alloc, table, after, end.as_slice())?;
    Ok(sorted(lines)?)
}

/// The plain values of the rows between two keys, in the order of the keys.
fn read_between<T: RowTable>(
    alloc: Global,
    table: &mut T,
    after: Bytes,
    end: &[u8],
) -> Result<Items<Bytes>, TableError>
    ensures values { IfOk result (λ values. values ≡ values_between after end.now (T.rows table.old)) }
    ensures same { T.rows table.new ≡ T.rows table.old }
    ensures cause { HasTableCause (T.failures table.old) (T.failures table.new) result }
    ensures calls { T.made table.new ≤ T.made table.old + rows_that (is_next_at after end.now (2 ^ 48)) (T.rows table.old) + 1 }
{
    let mut values = Items::new(alloc);
    let mut last = after;
    while let Some(met) = table.next(last.as_slice(), end, END)? {
        last = push_met(met, &mut values)?;
    }
    Ok(values)
}

/// Adds the plain value of a row that was met, if it has one. Gives back the row's key.
fn push_met(met: Found, values: &mut Items<Bytes>) -> Result<Bytes, Memory>
    ensures key { IfOk result (λ key. key ≡ met.key) }
    ensures added { OnOk result (values.new ≡ values.old ++ option_to_list (plain_value met.row.plain)) }
{
    let Found { key, row } = met;
    push_value(value_of(row), values)?;
    Ok(key)
}

/// Adds a value, if there is one.
fn push_value(value: Option<Bytes>, values: &mut Items<Bytes>) -> Result<(), Memory>
    ensures { OnOk result (values.new ≡ values.old ++ option_to_list value) }
{
    match value {
        None => Ok(()),
        Some(value) => values.push(value),
    }
}

/// The plain value of a row.
fn value_of(row: Row) -> Option<Bytes>
    ensures { result ≡ plain_value row.plain }
{
    let Row {
        plain,
        lock: _lock,
        versions: _versions,
    } = row;
    let Plain { value, seq: _seq } = plain?;
    value
}

/// The lines, sorted by their bytes.
fn sorted(lines: Items<Bytes>) -> Result<Items<Bytes>, Memory>
    ensures { IfOk result (λ sorted. IsSorted bytes_cmp sorted × IsPermutation lines sorted) }
{
    let mut lines = lines.into_vec();
    lines.sort()?;
    Ok(Items::from_vec(lines))
}
