ghost use Rattle.std.specs.Prelude.{◌≡◌, ℕ, ◌<◌, ◌^◌, IfOk, OnErr};
ghost use Rattle.std.specs.FinMap as map;
ghost use Rattle.pcj_table.specs.Table.{Table, row_at, shown, first_row, is_next_at, is_next_lock, is_counted_between, rows_that, Mutates};
ghost use Rattle.pcj_table.specs.Calls.{counted, HasTableCause};

use crate::{Cond, Found, Mutated, Row, TableError, Update};

/// A finite map from keys to rows, which one conditional mutation of one row at a time changes.
///
/// `Failed` comes only where the count of faults rose in that call, or stands at its last value. After an error
/// the rows are as they were.
pub trait RowTable {
    /// The rows by their keys.
    ghost rows: { Self → Table };

    /// How often the table has failed.
    ghost failures: { Self → ℕ };

    /// How many of the first five calls were made.
    ghost made: { Self → ℕ };

    /// The key's row, or `None` where the key has nothing.
    fn get(&mut self, key: &[u8]) -> Result<Option<Row>, TableError>
        ensures found { IfOk result (λ row. row ≡ shown (row_at (rows self.old) key.now)) }
        ensures same { rows self.new ≡ rows self.old }
        ensures cause { HasTableCause (failures self.old) (failures self.new) result }
        ensures calls { made self.new ≡ counted (made self.old) };

    /// The row with the least key above `after` and below `end` that has a lock with a start timestamp of at most
    /// `at`, or whose newest version with a commit timestamp of at most `at` is a put, or that has a plain value.
    fn next(&mut self, after: &[u8], end: &[u8], at: u64) -> Result<Option<Found>, TableError>
        ensures found { IfOk result (λ row. row ≡ first_row (is_next_at after.now end.now at) (rows self.old)) }
        ensures same { rows self.new ≡ rows self.old }
        ensures cause { HasTableCause (failures self.old) (failures self.new) result }
        ensures calls { made self.new ≡ counted (made self.old) };

    /// The row with the least key above `after` that has a lock.
    fn next_lock(&mut self, after: &[u8]) -> Result<Option<Found>, TableError>
        ensures found { IfOk result (λ row. row ≡ first_row (is_next_lock after.now) (rows self.old)) }
        ensures same { rows self.new ≡ rows self.old }
        ensures cause { HasTableCause (failures self.old) (failures self.new) result }
        ensures calls { made self.new ≡ counted (made self.old) };

    /// How many rows with keys from `from` on and below `end` have a put for their newest version, or a plain
    /// value.
    fn count(&mut self, from: &[u8], end: &[u8]) -> Result<u64, TableError>
        ensures count { IfOk result (λ n. n ≡ rows_that (is_counted_between from.now end.now) (rows self.old)) }
        ensures same { rows self.new ≡ rows self.old }
        ensures cause { HasTableCause (failures self.old) (failures self.new) result }
        ensures calls { made self.new ≡ counted (made self.old) };

    /// Carries out the updates in order on the key's row, where all the conditions hold of it. `Memory` comes
    /// also where the table would have 2^64 keys, so an applied mutation leaves fewer.
    fn mutate(
        &mut self,
        key: &[u8],
        conds: &[Cond],
        updates: &[Update],
    ) -> Result<Mutated, TableError>
        ensures done { IfOk result (λ done. Mutates (rows self.old) key.now conds.now updates.now done (rows self.new)) }
        ensures err { OnErr result (rows self.new ≡ rows self.old) }
        ensures keys { map.len (rows self.new) < 2 ^ 64 }
        ensures cause { HasTableCause (failures self.old) (failures self.new) result }
        ensures calls { made self.new ≡ counted (made self.old) };

    /// How many faults the table has had. The count stops at 2^64 - 1.
    fn faults(&self) -> u64
        ensures { result ≡ failures self.now };

    /// How many calls of `get`, `next`, `next_lock`, `count` and `mutate` were made. The count stops at 2^64 - 1.
    fn calls(&self) -> u64
        ensures made { result ≡ made self.now }
        ensures keys { map.len (rows self.now) < 2 ^ 64 };
}
