ghost use Rattle.std.specs.Prelude.{◌≡◌, true, not, filter};
ghost use Rattle.pcj_table.specs.Table.{is_before};
ghost use Rattle.pcj_sorted.specs.Entries.{keys_rise};

use crate::place::place_of;
use pcj_table::Found;

/// The rows with keys above this one.
pub fn rows_above<'t>(rows: &'t [Found], key: &[u8]) -> &'t [Found]
    requires { keys_rise rows.now ≡ true }
    ensures { result.now ≡ filter (λ row. is_before key.now row.key) rows.now }
{
    match place_of(rows, key) {
        Ok(at) => rows.split_at(at + 1).1,
        Err(at) => rows.split_at(at).1,
    }
}

/// The rows with this key or a higher one.
pub fn rows_from<'t>(rows: &'t [Found], key: &[u8]) -> &'t [Found]
    requires { keys_rise rows.now ≡ true }
    ensures { result.now ≡ filter (λ row. not (is_before row.key key.now)) rows.now }
{
    match place_of(rows, key) {
        Ok(at) => rows.split_at(at).1,
        Err(at) => rows.split_at(at).1,
    }
}

/// The rows with keys below this one.
pub fn rows_below<'t>(rows: &'t [Found], key: &[u8]) -> &'t [Found]
    requires { keys_rise rows.now ≡ true }
    ensures { result.now ≡ filter (λ row. is_before row.key key.now) rows.now }
{
    match place_of(rows, key) {
        Ok(at) => rows.split_at(at).0,
        Err(at) => rows.split_at(at).0,
    }
}
