ghost use Rattle.std.specs.Prelude.{◌≡◌, ◌<◌, ◌^◌, None, Some, true, false, length, is_ok, IfOk, OnErr, IsErrOf};
ghost use Rattle.pcj_table.specs.Calls.{HasTableCause};
ghost use Rattle.pcj_oracle.specs.Clock.{IsClock, next_number, stored_number};
ghost use Rattle.pcj_oracle.specs.Draw.{Keeps};
ghost use Rattle.pcj_oracle.specs.Calls.{calls_due};
ghost use Rattle.pcj_txn.specs.declared.error.TxnError.TheVariants.{Spent};
ghost use Rattle.pcj_txn.specs.Progress.{Draw, due, new_progress};
ghost use Rattle.pcj_txn.specs.Steps.{Steps};
ghost use Rattle.pcj_txn.specs.Errors.{HasTxnCause, is_answered, step_calls, MakesOneCall, MakesStepCalls};

use crate::refusal::refusal_of;
use crate::row::{lock_row, unlock_row};
use crate::{TxnError, TxnEvent};
use pcj_oracle::Oracle;
use pcj_table::{Mutated, RowTable, TableError, Write};
use pcj_term::Items;
use std::alloc::Global;
use std::marker::Model;

/// A transaction that is carried out a step at a time (Percolator, section 2.2). The row of its first write is its
/// primary.
#[derive(Drop)]
pub struct Txn {
    alloc: Global,
    start: u64,
    writes: Items<Write>,
    /// How many of the writes are prewritten.
    prewritten: usize,
    commit: Option<u64>,
    committed: bool,
    /// How many of the rows have had their commit.
    settled: usize,
}

impl Model for Txn {
    ghost use Rattle.pcj_txn.specs.Progress.{Progress};

    ghost Value = { Progress };

    ghost view = { λ t. record { start = t.start; transaction = record { writes = t.writes; prewritten = t.prewritten; commit = t.commit; committed = t.committed }; settled = t.settled } };
}

impl Txn {
    /// A transaction of these writes, of which nothing is carried out yet. Its start is a timestamp that was drawn, and
    /// the keys of the writes are distinct.
    pub fn new(alloc: Global, start: u64, writes: Items<Write>) -> Txn
        ensures { result ≡ new_progress start writes }
    {
        Txn {
            alloc,
            start,
            writes,
            prewritten: 0,
            commit: None,
            committed: false,
            settled: 0,
        }
    }

    /// Does what is due: locks the next row, draws the commit once all are locked, commits the primary's row, and then
    /// each other one. It makes one call of the table at most, besides those of its draw.
    ///
    /// After `Conflict`, `PrimaryLost` and `Done` no further step is due, and the same would be answered again. The
    /// locks that were set stay until someone meets them. After an error nothing has changed.
    pub fn step<T: RowTable>(
        &mut self,
        table: &mut T,
        oracle: &mut Oracle,
    ) -> Result<TxnEvent, TxnError>
        requires { IsClock oracle.old (T.rows table.old) }

        // What is told, of which rows, and what is left.
        ensures step { IfOk result (λ event. Steps self.old oracle.old (T.rows table.old) event self.new oracle.new (T.rows table.new)) }
        ensures same { OnErr result (self.new ≡ self.old) }
        ensures kept { OnErr result (Keeps oracle.old (T.rows table.old) oracle.new (T.rows table.new)) }
        ensures clock { IsClock oracle.new (T.rows table.new) }

        // When each error comes, and the calls of the table.
        ensures spent_draw { IsErrOf result Spent → due self.old ≡ Draw }
        ensures spent { IsErrOf result Spent → next_number oracle.old (T.rows table.old) ≡ 2 ^ 48 }
        ensures cause { HasTxnCause (T.failures table.old) (T.failures table.new) result }
        ensures calls { MakesStepCalls (step_calls (due self.old) oracle.old (T.rows table.old)) (T.made table.old) (T.made table.new) (is_answered result) }
        ensures one { MakesOneCall oracle.old oracle.new (T.made table.old) (T.made table.new) }
    {
        match self.commit {
            None if self.prewritten < self.writes.len() => Ok(self.prewrite_next(table)?),
            None => self.draw(table, oracle),
            Some(commit) if self.committed => Ok(self.commit_next(table, commit)?),
            Some(commit) => Ok(self.commit_primary(table, commit)?),
        }
    }
}

impl Txn {
    ghost use Rattle.std.specs.Prelude.{Option};
    ghost use Rattle.pcj_oracle.specs.declared.block.Block.{Block};

    /// Locks the row of the next write.
    fn prewrite_next<T: RowTable>(&mut self, table: &mut T) -> Result<TxnEvent, TableError>
        requires undrawn { self.old.transaction.commit ≡ None }
        requires left { self.old.transaction.prewritten < length self.old.transaction.writes }
        ensures step { (oracle : Option Block) → IfOk result (λ event. Steps self.old oracle (T.rows table.old) event self.new oracle (T.rows table.new)) }
        ensures same { OnErr result (self.new ≡ self.old) }
        ensures err { OnErr result (T.rows table.new ≡ T.rows table.old) }
        ensures number { stored_number (T.rows table.new) ≡ stored_number (T.rows table.old) }
        ensures cause { HasTableCause (T.failures table.old) (T.failures table.new) result }
        ensures calls { MakesStepCalls 1 (T.made table.old) (T.made table.new) (is_ok result) }
    {
        let writes = self.writes.as_slice();
        let (primary, write) = (&writes[0], &writes[self.prewritten]);
        match lock_row(self.alloc, table, write, self.start, primary.key.as_slice())? {
            Mutated::Applied => {
                self.prewritten += 1;
                Ok(TxnEvent::Prewrote)
            }
            Mutated::Rejected(row) => Ok(refusal_of(self.alloc, &write.key, row, self.start)?),
        }
    }

    /// Draws the commit.
    fn draw<T: RowTable>(
        &mut self,
        table: &mut T,
        oracle: &mut Oracle,
    ) -> Result<TxnEvent, TxnError>
        requires clock { IsClock oracle.old (T.rows table.old) }
        requires due { due self.old ≡ Draw }
        ensures step { IfOk result (λ event. Steps self.old oracle.old (T.rows table.old) event self.new oracle.new (T.rows table.new)) }
        ensures same { OnErr result (self.new ≡ self.old) }
        ensures kept { OnErr result (Keeps oracle.old (T.rows table.old) oracle.new (T.rows table.new)) }
        ensures clock { IsClock oracle.new (T.rows table.new) }
        ensures spent { IsErrOf result Spent → next_number oracle.old (T.rows table.old) ≡ 2 ^ 48 }
        ensures cause { HasTxnCause (T.failures table.old) (T.failures table.new) result }
        ensures calls { MakesStepCalls (calls_due oracle.old (T.rows table.old)) (T.made table.old) (T.made table.new) (is_answered result) }
        ensures one { MakesOneCall oracle.old oracle.new (T.made table.old) (T.made table.new) }
    {
        let commit = oracle.draw(table)?;
        self.commit = Some(commit);
        Ok(TxnEvent::DrewCommit(commit))
    }

    /// Commits the primary's row.
    fn commit_primary<T: RowTable>(
        &mut self,
        table: &mut T,
        commit: u64,
    ) -> Result<TxnEvent, TableError>
        requires drawn { self.old.transaction.commit ≡ Some commit }
        requires committed { self.old.transaction.committed ≡ false }
        ensures step { (oracle : Option Block) → IfOk result (λ event. Steps self.old oracle (T.rows table.old) event self.new oracle (T.rows table.new)) }
        ensures same { OnErr result (self.new ≡ self.old) }
        ensures err { OnErr result (T.rows table.new ≡ T.rows table.old) }
        ensures number { stored_number (T.rows table.new) ≡ stored_number (T.rows table.old) }
        ensures cause { HasTableCause (T.failures table.old) (T.failures table.new) result }
        ensures calls { (oracle : Option Block) → MakesStepCalls (step_calls (due self.old) oracle (T.rows table.old)) (T.made table.old) (T.made table.new) (is_ok result) }
    {
        let Some(write) = self.writes.get(0) else {
            self.committed = true;
            return Ok(TxnEvent::Committed(commit));
        };
        match unlock_row(self.alloc, table, write, self.start, commit)? {
            Mutated::Applied => {
                self.committed = true;
                self.settled = 1;
                Ok(TxnEvent::Committed(commit))
            }
            Mutated::Rejected(row) => Ok(TxnEvent::PrimaryLost(row)),
        }
    }

    /// Commits the next row after the primary's, unless whoever met its lock has done so.
    fn commit_next<T: RowTable>(
        &mut self,
        table: &mut T,
        commit: u64,
    ) -> Result<TxnEvent, TableError>
        requires drawn { self.old.transaction.commit ≡ Some commit }
        requires committed { self.old.transaction.committed ≡ true }
        ensures step { (oracle : Option Block) → IfOk result (λ event. Steps self.old oracle (T.rows table.old) event self.new oracle (T.rows table.new)) }
        ensures same { OnErr result (self.new ≡ self.old) }
        ensures err { OnErr result (T.rows table.new ≡ T.rows table.old) }
        ensures number { stored_number (T.rows table.new) ≡ stored_number (T.rows table.old) }
        ensures cause { HasTableCause (T.failures table.old) (T.failures table.new) result }
        ensures calls { (oracle : Option Block) → MakesStepCalls (step_calls (due self.old) oracle (T.rows table.old)) (T.made table.old) (T.made table.new) (is_ok result) }
    {
        let Some(write) = self.writes.as_slice().get(self.settled) else {
            return Ok(TxnEvent::Done);
        };
        unlock_row(self.alloc, table, write, self.start, commit)?;
        self.settled += 1;
        Ok(TxnEvent::SecondaryDone)
    }
}
