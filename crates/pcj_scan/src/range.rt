ghost use Rattle.std.specs.Prelude.{◌≡◌, ◌≤◌, ◌+◌, ◌*◌, ◌∷◌, [], ℕ, List, Some, IfOk, IfSome, OnOk};
ghost use Rattle.pcj_table.specs.Calls.{HasTableCause};
ghost use Rattle.pcj_table.specs.Table.{row_at};
ghost use Rattle.pcj_patterns.specs.Serving.{rows_of};
ghost use Rattle.pcj_recover.specs.Steps.{KeepPlain};
ghost use Rattle.pcj_moves.specs.declared.answer.Answer.{Answer};
ghost use Rattle.pcj_pending.specs.Pending.{locks_of};
ghost use Rattle.pcj_scan.specs.Ranges.{AddsNoRow, IsAhead, IsRead, NeverHasPlain, answer_of, rows_for};
ghost use Rattle.pcj_scan.specs.Readers.{ReadsInPart, ReadsOn};

use crate::locks::take_away;
use crate::row::push_match;
use pcj_algebra::TriplePattern;
use pcj_encode::KeyRange;
use pcj_expr::Mapping;
use pcj_patterns::pattern_rows;
use pcj_snapshot::{ReadEvent, SnapRead};
use pcj_table::{RowTable, TableError};
use pcj_term::{Bytes, Items, Memory, TryClone};
use std::alloc::Global;

/// Reads the rows of a triple pattern's range at a time, and gives the matches of the triples that are there then.
pub(crate) fn read_range<T: RowTable>(
    alloc: Global,
    pattern: &TriplePattern,
    at: u64,
    table: &mut T,
) -> Result<Items<Mapping>, TableError>
    // Which answers a reader of that start has, and what they are of.
    ensures part { ReadsInPart at (row_at (T.rows table.old)) (row_at (T.rows table.new)) }
    ensures read { IfOk result (λ matches. (answers : List Answer) × IsRead answers pattern.now matches × ReadsOn at (row_at (T.rows table.old)) answers (row_at (T.rows table.new))) }

    // What stays, when an error comes, and the calls of the table.
    ensures plain { KeepPlain (T.rows table.old) (T.rows table.new) }
    ensures rows { AddsNoRow (T.rows table.old) (T.rows table.new) }
    ensures cause { HasTableCause (T.failures table.old) (T.failures table.new) result }
    ensures calls { OnOk result (T.made table.new + 4 * locks_of (T.rows table.new) ≤ T.made table.old + 4 * locks_of (T.rows table.old) + rows_for pattern.now (T.rows table.old) + 1) }
    ensures most { T.made table.new ≤ T.made table.old + 4 * locks_of (T.rows table.old) + rows_for pattern.now (T.rows table.old) + 1 }
{
    let KeyRange { after, end } = range_for(alloc, pattern)?;
    let mut matches = Items::new(alloc);
    let mut last = after;
    while let Some(key) = next_found(alloc, &last, &end, at, table)? {
        push_match(alloc, pattern, key.as_slice(), &mut matches)?;
        last = key;
    }
    Ok(matches)
}

/// The range of the rows that serve a triple pattern.
fn range_for(alloc: Global, pattern: &TriplePattern) -> Result<KeyRange, Memory>
    ensures { IfOk result (λ range. range ≡ (rows_of pattern.now).1) }
{
    let (_, range) = pattern_rows(alloc, pattern)?;
    Ok(range)
}

/// The key of the first row between two keys in which something is seen at a time. Locks on the way are taken away.
fn next_found<T: RowTable>(
    alloc: Global,
    after: &Bytes,
    end: &Bytes,
    at: u64,
    table: &mut T,
) -> Result<Option<Bytes>, TableError>
    requires { NeverHasPlain after.now end.now }

    // What a reader of that start has read.
    ensures part { ReadsInPart at (row_at (T.rows table.old)) (row_at (T.rows table.new)) }
    ensures read { IfOk result (λ key. (value : List ℕ) × ReadsOn at (row_at (T.rows table.old)) (answer_of after.now end.now key value ∷ []) (row_at (T.rows table.new))) }
    ensures ahead { IfOk result (λ key. IfSome key (IsAhead after.now end.now (T.rows table.new))) }

    // What stays, when an error comes, and the calls of the table.
    ensures plain { KeepPlain (T.rows table.old) (T.rows table.new) }
    ensures rows { AddsNoRow (T.rows table.old) (T.rows table.new) }
    ensures cause { HasTableCause (T.failures table.old) (T.failures table.new) result }
    ensures calls { OnOk result (T.made table.new + 4 * locks_of (T.rows table.new) ≤ T.made table.old + 4 * locks_of (T.rows table.old) + 1) }
    ensures most { T.made table.new ≤ T.made table.old + 4 * locks_of (T.rows table.old) + 1 }
{
    let mut read = SnapRead::next(alloc, range_of(alloc, after, end)?, at);
    loop {
        match read.step(table)? {
            ReadEvent::Found(pair) => return Ok(Some(pair.key)),
            ReadEvent::Nothing => return Ok(None),
            ReadEvent::MetLock { key, lock } => take_away(alloc, key, lock, table)?,
        }
    }
}

/// The range between two keys.
fn range_of(alloc: Global, after: &Bytes, end: &Bytes) -> Result<KeyRange, Memory>
    ensures { IfOk result (λ range. range ≡ record { after = after.now; end = end.now }) }
{
    Ok(KeyRange {
        after: after.try_clone(alloc)?,
        end: end.try_clone(alloc)?,
    })
}
