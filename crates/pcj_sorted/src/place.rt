ghost use Rattle.std.specs.Prelude.{◌≡◌, true, length};
ghost use Rattle.std.specs.List.Sorted.{IsSearchInRange};
ghost use Rattle.pcj_sorted.specs.Entries.{keys_rise};
ghost use Rattle.pcj_term.specs.Order.{bytes_cmp};
ghost use Rattle.pcj_sorted.specs.Place.{IsPlace};

use pcj_table::Found;
use std::cmp::Ordering;

/// Where the key's row stands, or where it would go. Takes a number of steps that is a logarithm of the rows.
pub fn place_of(rows: &[Found], key: &[u8]) -> Result<usize, usize>
    requires { keys_rise rows.now ≡ true }
    ensures place { IsPlace key.now rows.now result }
    ensures bound { IsSearchInRange result (length rows.now) }
{
    rows.binary_search_by(|row| compare(row, key))
}

/// How the row's key compares with another.
fn compare(row: &Found, key: &[u8]) -> Ordering
    ensures { result ≡ bytes_cmp row.now.key key.now }
{
    row.key.as_slice().cmp(key)
}
