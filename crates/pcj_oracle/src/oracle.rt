ghost use Rattle.std.specs.Prelude.{◌≡◌, ◌+◌, ◌<◌, ◌≤◌, ◌^◌, Some, None, IfOk, OnOk, OnErr, IsErrOf};
ghost use Rattle.pcj_table.specs.Calls.{HasTableCause};
ghost use Rattle.pcj_oracle.specs.Clock.{IsClock, IsBlock, next_number, stored_number, attached};
ghost use Rattle.pcj_oracle.specs.declared.error.OracleError.TheVariants.{Spent};
ghost use Rattle.pcj_oracle.specs.Draw.{IsNumber, Grants, Keeps, HasDrawCause, table_after};
ghost use Rattle.pcj_oracle.specs.Calls.{reads, stores, MakesCalls, HasDrawCalls};

use crate::OracleError;
use crate::block::Block;
use crate::clock::{END, limit_after, raise_number, stored_number};
use pcj_table::{RowTable, TableError};
use std::alloc::Global;
use std::marker::Model;

/// Grants timestamps, from 1 to 2^48 - 1, each once and in rising order (Percolator, section 2.3).
///
/// Once it has read the clock's row it is attached to that table: the numbers from its next one to its limit are
/// its own, and it grants them without a call of the table.
#[derive(Drop)]
pub struct Oracle {
    alloc: Global,
    block: Option<Block>,
}

impl Model for Oracle {
    ghost use Rattle.std.specs.Prelude.{Option};
    ghost use Rattle.pcj_oracle.specs.declared.block.Block.{Block};

    ghost Value = { Option Block };

    ghost view = { λ o. o.block };
}

impl Oracle {
    /// An oracle that isn't attached to a table.
    pub fn new(alloc: Global) -> Oracle
        ensures { result ≡ None }
    {
        Oracle { alloc, block: None }
    }

    /// Loses the numbers that weren't granted: the oracle isn't attached to a table any more. Takes no memory.
    pub fn crash(&mut self)
        ensures { self.new ≡ None }
    {
        self.block = None;
    }

    /// Grants the next number, or answers `Spent` where 2^48 would be drawn. The clock's row is read where the oracle
    /// isn't attached, and is raised by a block where no number is left. After an error the next number is the same.
    pub fn draw<T: RowTable>(&mut self, table: &mut T) -> Result<u64, OracleError>
        requires { IsClock self.old (T.rows table.old) }

        // The next number, which is below 2^48, or none where it is 2^48. After any error nothing has changed.
        ensures granted { IfOk result (λ number. IsNumber number self.old (T.rows table.old) self.new (T.rows table.new)) }
        ensures spent { IsErrOf result Spent → next_number self.old (T.rows table.old) ≡ 2 ^ 48 }
        ensures kept { OnErr result (Keeps self.old (T.rows table.old) self.new (T.rows table.new)) }

        // The oracle's own numbers, and the calls of the table.
        ensures clock { IsClock self.new (T.rows table.new) }
        ensures block { IfOk result (λ number. Grants self.old (T.rows table.old) number self.new (T.rows table.new)) }
        ensures cause { HasDrawCause (T.failures table.old) (T.failures table.new) result }
        ensures calls { HasDrawCalls self.old (T.rows table.old) (T.made table.old) (T.made table.new) result self.new }
    {
        let block = self.attach(table)?;
        if block.next == END {
            return Err(OracleError::Spent);
        }
        let limit = self.reserve(table, block)?;
        self.block = Some(Block {
            next: block.next + 1,
            limit,
        });
        Ok(block.next)
    }

    /// The block, which begins at the stored number where there was none.
    fn attach<T: RowTable>(&mut self, table: &mut T) -> Result<Block, TableError>
        requires { IsClock self.old (T.rows table.old) }
        ensures ok { IfOk result (λ block. (self.new ≡ Some block) × (block ≡ attached self.old (T.rows table.old))) }
        ensures err { OnErr result ((self.old ≡ None) × (self.new ≡ None)) }
        ensures same { T.rows table.new ≡ T.rows table.old }
        ensures cause { HasTableCause (T.failures table.old) (T.failures table.new) result }
        ensures calls { MakesCalls (reads self.old) (T.made table.old) (T.made table.new) result }
    {
        if let Some(block) = self.block {
            return Ok(block);
        }
        let number = stored_number(table)?;
        let block = Block {
            next: number,
            limit: number,
        };
        self.block = Some(block);
        Ok(block)
    }

    /// The limit of the block that has the next number, which is stored where the block begins there.
    fn reserve<T: RowTable>(&self, table: &mut T, block: Block) -> Result<u64, TableError>
        requires block { IsBlock block (stored_number (T.rows table.old)) }
        requires last { block.next < 2 ^ 48 }
        requires stored { stored_number (T.rows table.old) ≤ 2 ^ 48 }
        ensures ok { OnOk result (T.rows table.new ≡ table_after (T.rows table.old) block.next) }
        ensures rest { IfOk result (λ limit. IsBlock (record { next = block.next + 1; limit = limit }) (stored_number (T.rows table.new))) }
        ensures last { OnOk result (stored_number (T.rows table.new) ≤ 2 ^ 48) }
        ensures err { OnErr result (T.rows table.new ≡ T.rows table.old) }
        ensures spent { OnErr result (block.next ≡ block.limit) }
        ensures cause { HasTableCause (T.failures table.old) (T.failures table.new) result }
        ensures calls { MakesCalls (stores block.next (stored_number (T.rows table.old))) (T.made table.old) (T.made table.new) result }
    {
        if block.next < block.limit {
            return Ok(block.limit);
        }
        let limit = limit_after(block.limit);
        if !raise_number(self.alloc, table, limit)? {
            unreachable!();
        }
        Ok(limit)
    }
}
