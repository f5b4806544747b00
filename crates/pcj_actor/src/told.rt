ghost use Rattle.std.specs.Prelude.{◌≡◌, ◌⊎◌, IfOk};
ghost use Rattle.pcj_table.specs.Calls.{counted, HasTableCause};
ghost use Rattle.pcj_table.specs.Table.{row_at};
ghost use Rattle.pcj_mvcc.specs.Times.{TimesInOrder};
ghost use Rattle.pcj_actor.specs.Progress.{ReadsNoPlain, IsTold, IsToldOf};
ghost use Rattle.pcj_actor.specs.declared.task.Task.TheVariants.{Get, Next};

use pcj_encode::KeyRange;
use pcj_moves::Answer;
use pcj_snapshot::{ReadEvent, SnapRead};
use pcj_table::{Lock, RowTable, TableError};
use pcj_term::{Bytes, TryClone};
use std::alloc::Global;

/// What a read came to.
#[derive(Drop)]
pub enum Told {
    /// What was read.
    Answered(Answer),
    /// A lock of the read's time or before, and the key of its row.
    Met { key: Bytes, lock: Lock },
}

/// Reads the row of a key at a time.
pub(crate) fn read_row<T: RowTable>(
    alloc: Global,
    table: &mut T,
    key: &Bytes,
    at: u64,
) -> Result<Told, TableError>
    ensures told { TimesInOrder (row_at (T.rows table.old)) → IfOk result (λ told. IsTold told at (row_at (T.rows table.old))) }
    ensures of { IfOk result (λ told. IsToldOf (Get key.now) told) }
    ensures rows { T.rows table.new ≡ T.rows table.old }
    ensures cause { HasTableCause (T.failures table.old) (T.failures table.new) result }
    ensures most { (T.made table.new ≡ T.made table.old) ⊎ (T.made table.new ≡ counted (T.made table.old)) }
{
    let mut read = SnapRead::get(alloc, key.try_clone(alloc)?, at);
    let found = match read.step(table)? {
        ReadEvent::Found(pair) => Some(pair.value),
        ReadEvent::Nothing => None,
        ReadEvent::MetLock { key, lock } => return Ok(Told::Met { key, lock }),
    };
    let key = key.try_clone(alloc)?;
    Ok(Told::Answered(Answer::OfRow { key, found }))
}

/// Reads the first row of a range in which something is seen at a time.
pub(crate) fn read_range<T: RowTable>(
    alloc: Global,
    table: &mut T,
    range: &KeyRange,
    at: u64,
) -> Result<Told, TableError>
    ensures told { TimesInOrder (row_at (T.rows table.old)) → ReadsNoPlain (Next range.now) (row_at (T.rows table.old)) → IfOk result (λ told. IsTold told at (row_at (T.rows table.old))) }
    ensures of { IfOk result (λ told. IsToldOf (Next range.now) told) }
    ensures rows { T.rows table.new ≡ T.rows table.old }
    ensures cause { HasTableCause (T.failures table.old) (T.failures table.new) result }
    ensures most { (T.made table.new ≡ T.made table.old) ⊎ (T.made table.new ≡ counted (T.made table.old)) }
{
    let mut read = SnapRead::next(alloc, range.try_clone(alloc)?, at);
    let found = match read.step(table)? {
        ReadEvent::Found(pair) => Some(pair),
        ReadEvent::Nothing => None,
        ReadEvent::MetLock { key, lock } => return Ok(Told::Met { key, lock }),
    };
    let KeyRange { after, end } = range.try_clone(alloc)?;
    Ok(Told::Answered(Answer::OfRange { after, end, found }))
}
