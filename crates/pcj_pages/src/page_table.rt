ghost use Rattle.std.specs.Prelude.{◌≡◌, ◌<◌, ◌^◌, ◌≤◌, true, false, [], ◌∷◌, is_err, IsOk, IfOk, IfErr, IfSome, OnErr};
ghost use Rattle.std.specs.FinMap as map;
ghost use Rattle.std.specs.Option.{option_map};
ghost use Rattle.pcj_io.specs.Calls.{IsNextCall, no_calls};
ghost use Rattle.pcj_table.specs.Calls.{HasTableCause, has_failed, counted};
ghost use Rattle.pcj_table.specs.Row.{conds_hold};
ghost use Rattle.pcj_table.specs.Table.{row_at, shown, first_row, is_next_at, is_next_lock, is_counted_between, rows_that, Mutates};
ghost use Rattle.pcj_table.specs.declared.update.Update.TheVariants.{DropLock};
ghost use Rattle.pcj_table.specs.declared.error.TableError.TheVariants.{Failed};
ghost use Rattle.pcj_sorted.specs.Entries.{table_of};
ghost use Rattle.pcj_pages.specs.Pages.{rows_of, page_at, ArePages};
ghost use Rattle.pcj_pages.specs.Summary.{view_of};

use crate::mutation::mutate;
use crate::page::Page;
use crate::page_view::PageView;
use crate::read::{count, first_locked, first_seen, row_of};
use pcj_io::FailingCalls;
use pcj_table::{Cond, Found, Mutated, Row, RowTable, TableError, Update, begin_call};
use pcj_term::Items;
use std::alloc::Global;
use std::marker::Model;

/// A conditional row table in memory, in pages of at most 64 rows, which fails on chosen calls.
///
/// A look-up takes a number of steps that is a logarithm of the rows. A mutation moves the rows of one page at
/// most, and the pointers to the pages only where a page comes or goes.
#[derive(Drop)]
pub struct PageTable {
    alloc: Global,
    pages: Vec<Page>,
    calls: FailingCalls,
}

impl Model for PageTable {
    ghost use Rattle.pcj_pages.specs.Pages.{Kept, ArePages};

    ghost Value = { Kept };

    ghost view = { λ t. record { pages = t.pages.items; calls = t.calls } };

    ghost invariant = { λ t. ArePages t.pages.items };
}

impl PageTable {
    /// A table without rows. The calls whose numbers, from 1, are in `failing` answer `Failed`.
    pub fn new(alloc: Global, failing: Items<u64>) -> PageTable
        ensures kept { result ≡ record { pages = []; calls = no_calls failing } }
        ensures empty { table_of (rows_of result.pages) ≡ map.empty }
    {
        PageTable {
            alloc,
            pages: Vec::new(alloc),
            calls: FailingCalls::new(failing.into_vec()),
        }
    }

    /// What a page tells of its rows, in the order of keys from 0 on, or `None` where there is no such page. Takes
    /// no memory.
    pub fn page(&self, at: usize) -> Option<PageView>
        ensures view { result ≡ option_map view_of (page_at self.now.pages at) }
        ensures size { IfSome result (λ view. (1 ≤ view.rows) × (view.rows ≤ 64)) }
        ensures order { ArePages self.now.pages }
    {
        match self.pages.get(at) {
            Some(page) => Some(page.view()),
            None => None,
        }
    }
}

impl RowTable for PageTable {
    ghost rows = { λ t. table_of (rows_of t.pages) };

    ghost failures = { λ t. t.calls.faults };

    ghost made = { λ t. t.calls.made };

    fn get(&mut self, key: &[u8]) -> Result<Option<Row>, TableError>
        ensures found { IfOk result (λ row. row ≡ shown (row_at (table_of (rows_of self.old.pages)) key.now)) }
        ensures same { table_of (rows_of self.new.pages) ≡ table_of (rows_of self.old.pages) }
        ensures cause { HasTableCause self.old.calls.faults self.new.calls.faults result }
        ensures calls { self.new.calls.made ≡ counted self.old.calls.made }
        ensures next { IsNextCall self.old.calls self.new.calls (has_failed result) }
        ensures never { self.old.calls.failing ≡ [] → has_failed result ≡ false }
    {
        begin_call(&mut self.calls)?;
        Ok(row_of(self.alloc, &self.pages, key)?)
    }

    fn next(&mut self, after: &[u8], end: &[u8], at: u64) -> Result<Option<Found>, TableError>
        ensures found { IfOk result (λ row. row ≡ first_row (is_next_at after.now end.now at) (table_of (rows_of self.old.pages))) }
        ensures same { table_of (rows_of self.new.pages) ≡ table_of (rows_of self.old.pages) }
        ensures cause { HasTableCause self.old.calls.faults self.new.calls.faults result }
        ensures calls { self.new.calls.made ≡ counted self.old.calls.made }
        ensures next { IsNextCall self.old.calls self.new.calls (has_failed result) }
        ensures never { self.old.calls.failing ≡ [] → has_failed result ≡ false }
    {
        begin_call(&mut self.calls)?;
        Ok(first_seen(self.alloc, &self.pages, after, end, at)?)
    }

    fn next_lock(&mut self, after: &[u8]) -> Result<Option<Found>, TableError>
        ensures found { IfOk result (λ row. row ≡ first_row (is_next_lock after.now) (table_of (rows_of self.old.pages))) }
        ensures same { table_of (rows_of self.new.pages) ≡ table_of (rows_of self.old.pages) }
        ensures cause { HasTableCause self.old.calls.faults self.new.calls.faults result }
        ensures calls { self.new.calls.made ≡ counted self.old.calls.made }
        ensures next { IsNextCall self.old.calls self.new.calls (has_failed result) }
        ensures never { self.old.calls.failing ≡ [] → has_failed result ≡ false }
    {
        begin_call(&mut self.calls)?;
        Ok(first_locked(self.alloc, &self.pages, after)?)
    }

    fn count(&mut self, from: &[u8], end: &[u8]) -> Result<u64, TableError>
        ensures count { IfOk result (λ n. n ≡ rows_that (is_counted_between from.now end.now) (table_of (rows_of self.old.pages))) }
        ensures same { table_of (rows_of self.new.pages) ≡ table_of (rows_of self.old.pages) }
        ensures cause { HasTableCause self.old.calls.faults self.new.calls.faults result }
        ensures calls { self.new.calls.made ≡ counted self.old.calls.made }
        ensures next { IsNextCall self.old.calls self.new.calls (has_failed result) }
        ensures memory { IfErr result (λ e. e ≡ Failed) }
        ensures never { self.old.calls.failing ≡ [] → IsOk result }
    {
        begin_call(&mut self.calls)?;
        Ok(count(&self.pages, from, end))
    }

    fn mutate(
        &mut self,
        key: &[u8],
        conds: &[Cond],
        updates: &[Update],
    ) -> Result<Mutated, TableError>
        ensures done { IfOk result (λ done. Mutates (table_of (rows_of self.old.pages)) key.now conds.now updates.now done (table_of (rows_of self.new.pages))) }
        ensures err { OnErr result (table_of (rows_of self.new.pages) ≡ table_of (rows_of self.old.pages)) }
        ensures keys { map.len (table_of (rows_of self.new.pages)) < 2 ^ 64 }
        ensures cause { HasTableCause self.old.calls.faults self.new.calls.faults result }
        ensures calls { self.new.calls.made ≡ counted self.old.calls.made }
        ensures next { IsNextCall self.old.calls self.new.calls (has_failed result) }
        ensures never { self.old.calls.failing ≡ [] → has_failed result ≡ false }
        ensures drops { updates.now ≡ DropLock ∷ [] → conds_hold (row_at (table_of (rows_of self.old.pages)) key.now) conds.now ≡ true → IfErr result (λ e. e ≡ Failed) }
        ensures sure { self.old.calls.failing ≡ [] → updates.now ≡ DropLock ∷ [] → conds_hold (row_at (table_of (rows_of self.old.pages)) key.now) conds.now ≡ true → IsOk result }
    {
        begin_call(&mut self.calls)?;
        Ok(mutate(self.alloc, &mut self.pages, key, conds, updates)?)
    }

    fn faults(&self) -> u64 {
        self.calls.faults()
    }

    fn calls(&self) -> u64 {
        self.calls.made()
    }
}
