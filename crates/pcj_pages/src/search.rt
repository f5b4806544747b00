ghost use Rattle.std.specs.Prelude.{◌≡◌, ◌<◌, ◌≤◌, true, length, IfOk, IfErr};
ghost use Rattle.pcj_sorted.specs.Entries.{keys_rise};
ghost use Rattle.pcj_sorted.specs.Place.{IsPlace};
ghost use Rattle.pcj_pages.specs.Pages.{rows_of, AreSized};
ghost use Rattle.pcj_pages.specs.Search.{IsPageOf, page_rows, place_behind, rows_before};

use crate::page::Page;
use pcj_sorted::place_of;

/// The page in which the key's row stands or would go: the last that starts at the key or below it, or else the
/// first. Takes a number of steps that is a logarithm of the pages.
pub(crate) fn page_of(pages: &[Page], key: &[u8]) -> usize
    requires rise { keys_rise (rows_of pages.now) ≡ true }
    requires sized { AreSized pages.now }
    ensures page { IsPageOf key.now pages.now result }
    ensures bound { 0 < length pages.now → result < length pages.now }
{
    pages
        .partition_point(|page| page.starts_up_to(key))
        .saturating_sub(1)
}

/// Where the key's row stands in its page, or where it would go.
pub(crate) fn place_in(pages: &[Page], at: usize, key: &[u8]) -> Result<usize, usize>
    requires rise { keys_rise (rows_of pages.now) ≡ true }
    requires page { IsPageOf key.now pages.now at }
    requires bound { 0 < length pages.now → at < length pages.now }
    ensures place { IsPlace key.now (rows_of pages.now) (place_behind (rows_before pages.now at) result) }
    ensures row { IfOk result (λ place. (at < length pages.now) × (place < length (page_rows pages.now at))) }
    ensures gap { IfErr result (λ place. place ≤ length (page_rows pages.now at)) }
{
    match pages.get(at) {
        Some(page) => place_of(page.rows(), key),
        None => Err(0),
    }
}
