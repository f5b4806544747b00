ghost use Rattle.std.specs.Prelude.{◌≡◌, ◌<◌, ◌^◌, true, false, [], ◌∷◌, is_err, IsOk, IfOk, IfErr, OnErr};
ghost use Rattle.std.specs.FinMap as map;
ghost use Rattle.pcj_io.specs.Calls.{IsNextCall, no_calls};
ghost use Rattle.pcj_table.specs.Calls.{HasTableCause, has_failed, counted};
ghost use Rattle.pcj_table.specs.Row.{conds_hold};
ghost use Rattle.pcj_table.specs.Table.{row_at, shown, first_row, is_next_at, is_next_lock, is_counted_between, rows_that, Mutates};
ghost use Rattle.pcj_table.specs.declared.update.Update.TheVariants.{DropLock};
ghost use Rattle.pcj_table.specs.declared.error.TableError.TheVariants.{Failed};
ghost use Rattle.pcj_sorted.specs.Entries.{table_of};

use pcj_io::FailingCalls;
use pcj_sorted::{copied, count_between, mutate, next_locked, next_seen, row_of};
use pcj_table::{Cond, Found, Mutated, Row, RowTable, TableError, Update, begin_call};
use pcj_term::Items;
use std::alloc::Global;
use std::marker::Model;

/// A conditional row table in memory, which fails on chosen calls.
///
/// A look-up takes a number of steps that is a logarithm of the rows. A new row moves those above it.
#[derive(Drop)]
pub struct MemTable {
    alloc: Global,
    rows: Vec<Found>,
    calls: FailingCalls,
}

impl Model for MemTable {
    ghost use Rattle.std.specs.Prelude.{◌≡◌, true};
    ghost use Rattle.pcj_memtable.specs.Entries.{Kept};
    ghost use Rattle.pcj_sorted.specs.Entries.{keys_rise};

    ghost Value = { Kept };

    ghost view = { λ t. record { rows = t.rows.items; calls = t.calls } };

    ghost invariant = { λ t. keys_rise t.rows.items ≡ true };
}

impl MemTable {
    /// A table without rows. The calls whose numbers, from 1, are in `failing` answer `Failed`.
    pub fn new(alloc: Global, failing: Items<u64>) -> MemTable
        ensures kept { result ≡ record { rows = []; calls = no_calls failing } }
        ensures empty { table_of result.rows ≡ map.empty }
    {
        MemTable {
            alloc,
            rows: Vec::new(alloc),
            calls: FailingCalls::new(failing.into_vec()),
        }
    }
}

impl RowTable for MemTable {
    ghost rows = { λ t. table_of t.rows };

    ghost failures = { λ t. t.calls.faults };

    ghost made = { λ t. t.calls.made };

    fn get(&mut self, key: &[u8]) -> Result<Option<Row>, TableError>
        ensures found { IfOk result (λ row. row ≡ shown (row_at (table_of self.old.rows) key.now)) }
        ensures same { table_of self.new.rows ≡ table_of self.old.rows }
        ensures cause { HasTableCause self.old.calls.faults self.new.calls.faults result }
        ensures calls { self.new.calls.made ≡ counted self.old.calls.made }
        ensures next { IsNextCall self.old.calls self.new.calls (has_failed result) }
        ensures never { self.old.calls.failing ≡ [] → has_failed result ≡ false }
    {
        begin_call(&mut self.calls)?;
        Ok(row_of(self.alloc, &self.rows, key)?)
    }

    fn next(&mut self, after: &[u8], end: &[u8], at: u64) -> Result<Option<Found>, TableError>
        ensures found { IfOk result (λ row. row ≡ first_row (is_next_at after.now end.now at) (table_of self.old.rows)) }
        ensures same { table_of self.new.rows ≡ table_of self.old.rows }
        ensures cause { HasTableCause self.old.calls.faults self.new.calls.faults result }
        ensures calls { self.new.calls.made ≡ counted self.old.calls.made }
        ensures next { IsNextCall self.old.calls self.new.calls (has_failed result) }
        ensures never { self.old.calls.failing ≡ [] → has_failed result ≡ false }
    {
        begin_call(&mut self.calls)?;
        let found = next_seen(&self.rows, after, end, at);
        Ok(copied(self.alloc, found)?)
    }

    fn next_lock(&mut self, after: &[u8]) -> Result<Option<Found>, TableError>
        ensures found { IfOk result (λ row. row ≡ first_row (is_next_lock after.now) (table_of self.old.rows)) }
        ensures same { table_of self.new.rows ≡ table_of self.old.rows }
        ensures cause { HasTableCause self.old.calls.faults self.new.calls.faults result }
        ensures calls { self.new.calls.made ≡ counted self.old.calls.made }
        ensures next { IsNextCall self.old.calls self.new.calls (has_failed result) }
        ensures never { self.old.calls.failing ≡ [] → has_failed result ≡ false }
    {
        begin_call(&mut self.calls)?;
        let found = next_locked(&self.rows, after);
        Ok(copied(self.alloc, found)?)
    }

    fn count(&mut self, from: &[u8], end: &[u8]) -> Result<u64, TableError>
        ensures count { IfOk result (λ n. n ≡ rows_that (is_counted_between from.now end.now) (table_of self.old.rows)) }
        ensures same { table_of self.new.rows ≡ table_of self.old.rows }
        ensures cause { HasTableCause self.old.calls.faults self.new.calls.faults result }
        ensures calls { self.new.calls.made ≡ counted self.old.calls.made }
        ensures next { IsNextCall self.old.calls self.new.calls (has_failed result) }
        ensures memory { IfErr result (λ e. e ≡ Failed) }
        ensures never { self.old.calls.failing ≡ [] → IsOk result }
    {
        begin_call(&mut self.calls)?;
        Ok(count_between(&self.rows, from, end) as u64)
    }

    fn mutate(
        &mut self,
        key: &[u8],
        conds: &[Cond],
        updates: &[Update],
    ) -> Result<Mutated, TableError>
        ensures done { IfOk result (λ done. Mutates (table_of self.old.rows) key.now conds.now updates.now done (table_of self.new.rows)) }
        ensures err { OnErr result (table_of self.new.rows ≡ table_of self.old.rows) }
        ensures keys { map.len (table_of self.new.rows) < 2 ^ 64 }
        ensures cause { HasTableCause self.old.calls.faults self.new.calls.faults result }
        ensures calls { self.new.calls.made ≡ counted self.old.calls.made }
        ensures next { IsNextCall self.old.calls self.new.calls (has_failed result) }
        ensures never { self.old.calls.failing ≡ [] → has_failed result ≡ false }
        ensures drops { updates.now ≡ DropLock ∷ [] → conds_hold (row_at (table_of self.old.rows) key.now) conds.now ≡ true → IfErr result (λ e. e ≡ Failed) }
        ensures sure { self.old.calls.failing ≡ [] → updates.now ≡ DropLock ∷ [] → conds_hold (row_at (table_of self.old.rows) key.now) conds.now ≡ true → IsOk result }
    {
        begin_call(&mut self.calls)?;
        Ok(mutate(self.alloc, &mut self.rows, key, conds, updates)?)
    }

    fn faults(&self) -> u64 {
        self.calls.faults()
    }

    fn calls(&self) -> u64 {
        self.calls.made()
    }
}
