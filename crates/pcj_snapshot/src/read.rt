ghost use Rattle.std.specs.Prelude.{◌≡◌, IfOk};
ghost use Rattle.pcj_table.specs.Calls.{HasTableCause, counted};
ghost use Rattle.pcj_table.specs.Table.{row_at};
ghost use Rattle.pcj_mvcc.specs.Times.{TimesInOrder};
ghost use Rattle.pcj_snapshot.specs.declared.ask.Ask.TheVariants.{Get, Next};
ghost use Rattle.pcj_snapshot.specs.Reads.{read_event};
ghost use Rattle.pcj_snapshot.specs.Shown.{HasNoPlain, Shows};

use crate::ReadEvent;
use crate::ask::Ask;
use crate::row::{read_get, read_next};
use pcj_encode::KeyRange;
use pcj_table::{RowTable, TableError};
use pcj_term::Bytes;
use std::alloc::Global;
use std::marker::Model;

/// A read at a timestamp (Percolator, section 2.2: `Get`).
#[derive(Drop)]
pub struct SnapRead {
    alloc: Global,
    ask: Ask,
    at: u64,
}

impl Model for SnapRead {
    ghost use Rattle.pcj_snapshot.specs.Reads.{Read};

    ghost Value = { Read };

    ghost view = { λ r. record { ask = r.ask; at = r.at } };
}

impl SnapRead {
    /// A read of the row of this key.
    pub fn get(alloc: Global, key: Bytes, at: u64) -> SnapRead
        ensures { result ≡ record { ask = Get key; at = at } }
    {
        SnapRead {
            alloc,
            ask: Ask::Get(key),
            at,
        }
    }

    /// A read of the row with the least key in this range in which something is seen. No row of the range has a plain
    /// value.
    pub fn next(alloc: Global, range: KeyRange, at: u64) -> SnapRead
        ensures { result ≡ record { ask = Next range; at = at } }
    {
        SnapRead {
            alloc,
            ask: Ask::Next(range),
            at,
        }
    }

    /// Reads, by one call of the table. After `MetLock` the same read is due again, once the lock is taken away. No step
    /// changes the table, or what is read next.
    pub fn step<T: RowTable>(&mut self, table: &mut T) -> Result<ReadEvent, TableError>
        // What is told, and that it is what is seen.
        ensures told { IfOk result (λ event. event ≡ read_event self.old (T.rows table.old)) }
        ensures seen { TimesInOrder (row_at (T.rows table.old)) → HasNoPlain self.old.ask (row_at (T.rows table.old)) → IfOk result (λ event. Shows self.old (row_at (T.rows table.old)) event) }
        ensures same { self.new ≡ self.old }
        ensures rows { T.rows table.new ≡ T.rows table.old }

        // When an error comes, and the calls of the table.
        ensures cause { HasTableCause (T.failures table.old) (T.failures table.new) result }
        ensures calls { T.made table.new ≡ counted (T.made table.old) }
    {
        match &self.ask {
            Ask::Get(key) => read_get(self.alloc, table, key, self.at),
            Ask::Next(range) => read_next(self.alloc, table, range, self.at),
        }
    }
}
