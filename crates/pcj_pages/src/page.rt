ghost use Rattle.std.specs.Prelude.{◌≡◌, ◌≤◌, ◌<◌, ◌^◌, true, [], ◌∷◌, take, drop, length, IsOk, IfOk, OnOk, OnErr};
ghost use Rattle.std.specs.List.{insert};
ghost use Rattle.pcj_table.specs.Row.{conds_hold};
ghost use Rattle.pcj_table.specs.declared.update.Update.TheVariants.{DropLock};
ghost use Rattle.pcj_table.specs.Table.{is_before};
ghost use Rattle.pcj_sorted.specs.Edits.{row_in, Changes};
ghost use Rattle.pcj_pages.specs.Adding.{left_at};
ghost use Rattle.pcj_pages.specs.Summary.{summary_of, view_of};
ghost use Rattle.pcj_pages.specs.Search.{starts_up_to, starts_before, ends_before};

use crate::page_view::PageView;
use crate::summary::Summary;
use pcj_sorted::change;
use pcj_table::{Cond, Found, Mutated, Update};
use pcj_term::Memory;
use std::alloc::Global;
use std::marker::Model;

/// Some rows in ascending order of keys, with their summary. It is a pointer to them, so that it is moved cheaply.
#[derive(Drop)]
pub(crate) struct Page {
    inside: Box<Rows>,
}

/// What a page points to.
#[derive(Drop)]
struct Rows {
    rows: Vec<Found>,
    summary: Summary,
}

impl Model for Page {
    ghost use Rattle.std.specs.Prelude.{◌≡◌, List};
    ghost use Rattle.pcj_table.specs.declared.found.Found.{Found};
    ghost use Rattle.pcj_pages.specs.Summary.{summary_of};

    ghost Value = { List Found };

    ghost view = { λ p. p.inside.value.rows.items };

    ghost invariant = { λ p. p.inside.value.summary ≡ summary_of p.inside.value.rows.items };
}

impl Page {
    /// A page of these rows.
    pub(crate) fn new(alloc: Global, rows: Vec<Found>) -> Result<Page, Memory>
        ensures { IfOk result (λ page. page ≡ rows.items) }
    {
        let summary = Summary::of(&rows);
        let inside = Box::new(alloc, Rows { rows, summary })?;
        Ok(Page { inside })
    }

    pub(crate) fn rows(&self) -> &[Found]
        ensures { result.now ≡ self.now }
    {
        &self.inside.rows
    }

    pub(crate) fn summary(&self) -> Summary
        ensures { result ≡ summary_of self.now }
    {
        self.inside.summary
    }

    /// What it tells of its rows.
    pub(crate) fn view(&self) -> PageView
        ensures { result ≡ view_of self.now }
    {
        let Summary {
            live,
            locks,
            newest,
        } = self.summary();
        PageView {
            rows: self.rows().len() as u64,
            live,
            locks,
            newest,
        }
    }

    /// Whether the first key is at or below this one.
    pub(crate) fn starts_up_to(&self, key: &[u8]) -> bool
        ensures { result ≡ starts_up_to key.now self.now }
    {
        match self.rows() {
            [first, ..] => !is_before(key, first.key.as_slice()),
            [] => false,
        }
    }

    /// Whether the first key is below this one.
    pub(crate) fn starts_before(&self, key: &[u8]) -> bool
        ensures { result ≡ starts_before key.now self.now }
    {
        match self.rows() {
            [first, ..] => is_before(first.key.as_slice(), key),
            [] => false,
        }
    }

    /// Whether the last key is below this one.
    pub(crate) fn ends_before(&self, key: &[u8]) -> bool
        ensures { result ≡ ends_before key.now self.now }
    {
        match self.rows() {
            [.., last] => is_before(last.key.as_slice(), key),
            [] => false,
        }
    }
}

impl Page {
    /// A mutation of the row that stands at the place. After `Memory` the page is as it was.
    pub(crate) fn change(
        &mut self,
        alloc: Global,
        at: usize,
        conds: &[Cond],
        updates: &[Update],
    ) -> Result<Mutated, Memory>
        requires { at < length self.old }
        ensures done { IfOk result (λ done. Changes self.old at conds.now updates.now done self.new) }
        ensures err { OnErr result (self.new ≡ self.old) }
        ensures drops { updates.now ≡ DropLock ∷ [] → conds_hold (row_in self.old at) conds.now ≡ true → IsOk result }
    {
        let rows = &mut self.inside.rows;
        let count = rows.len();
        let old = Summary::of_row(&rows[at].row);
        let done = change(alloc, rows, at, conds, updates)?;
        let new = left_at(rows, at, count);
        self.inside.summary = self.inside.summary.replaced(old, new);
        Ok(done)
    }

    /// Puts a row in at the place.
    pub(crate) fn insert(&mut self, at: usize, found: Found) -> Result<(), Memory>
        requires place { at ≤ length self.old }
        ensures ok { OnOk result (self.new ≡ insert self.old at found) }
        ensures err { OnErr result (self.new ≡ self.old) }
    {
        let new = Summary::of_row(&found.row);
        self.inside.rows.insert(at, found)?;
        self.inside.summary = self.inside.summary.and(new);
        Ok(())
    }

    /// Takes the rows from the place on away, into a page of their own.
    pub(crate) fn split_off(&mut self, alloc: Global, at: usize) -> Result<Page, Memory>
        requires { at ≤ length self.old }
        ensures ok { OnOk result (self.new ≡ take at self.old) }
        ensures rest { IfOk result (λ page. page ≡ drop at self.old) }
        ensures err { OnErr result (self.new ≡ self.old) }
    {
        let mut upper = Page::new(alloc, Vec::new(alloc))?;
        upper.inside.rows = self.inside.rows.split_off(at)?;
        upper.inside.summary = Summary::of(&upper.inside.rows);
        self.inside.summary = Summary::of(&self.inside.rows);
        Ok(upper)
    }
}

/// The summary of the row at a place where there are still as many rows, and else that of none.
fn left_at(rows: &[Found], at: usize, count: usize) -> Summary
    requires { at < count }
    ensures { result ≡ left_at rows.now at count }
{
    if rows.len() == count {
        Summary::of_row(&rows[at].row)
    } else {
        Summary::none()
    }
}

/// Whether some bytes come before others.
fn is_before(bytes: &[u8], other: &[u8]) -> bool
    ensures { result ≡ is_before bytes.now other.now }
{
    bytes.cmp(other).is_lt()
}
