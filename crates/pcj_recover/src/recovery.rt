ghost use Rattle.std.specs.Prelude.{◌≡◌, ◌⊎◌, ◌<◌, IfOk, OnOk, OnErr};
ghost use Rattle.pcj_table.specs.Calls.{HasTableCause, counted};
ghost use Rattle.pcj_table.specs.Table.{row_at};
ghost use Rattle.pcj_mvcc.specs.Times.{TimesInOrder};
ghost use Rattle.pcj_recover.specs.declared.event.RecoveryEvent.TheVariants.{Working};
ghost use Rattle.pcj_recover.specs.Progress.{new_progress, DropOwn, ReadPrimary, DropPrimary, RollForward, RollBack, due, steps_left};
ghost use Rattle.pcj_recover.specs.Steps.{Steps, Decides, KeepPlain};

use crate::RecoveryEvent;
use crate::primary::{Primary, drop_primary, read_primary};
use pcj_mvcc::{roll_back_row, roll_forward_row};
use pcj_table::{Lock, RowTable, TableError};
use pcj_term::Bytes;
use std::alloc::Global;
use std::marker::Model;

/// The recovery of a lock that was met on a row, carried out a step at a time (Percolator, section 2.2).
#[derive(Drop)]
pub struct Recovery {
    alloc: Global,
    key: Bytes,
    lock: Lock,
    primary: Primary,
}

impl Model for Recovery {
    ghost use Rattle.pcj_recover.specs.Progress.{Progress, known_of, is_locked};

    ghost Value = { Progress };

    ghost view = { λ r. record { recovery = record { key = r.key; lock = r.lock; known = known_of r.primary }; locked = is_locked r.primary } };
}

impl Recovery {
    /// The recovery of this lock, which was met on the row of this key. Nothing is carried out yet.
    pub fn new(alloc: Global, key: Bytes, lock: Lock) -> Recovery
        ensures { result ≡ new_progress key lock }
    {
        Recovery {
            alloc,
            key,
            lock,
            primary: Primary::Unread,
        }
    }

    /// Looks at the primary, takes its lock away, or makes the lock that was met a version or takes it away. It makes one
    /// call of the table.
    ///
    /// After `RolledForward` and `RolledBack` no further step is due, and another one would find the lock gone. After an
    /// error nothing has changed.
    pub fn step<T: RowTable>(&mut self, table: &mut T) -> Result<RecoveryEvent, TableError>
        // What is told, of which rows, and what is left.
        ensures step { IfOk result (λ event. Steps self.old (T.rows table.old) event self.new (T.rows table.new)) }
        ensures decides { TimesInOrder (row_at (T.rows table.old)) → IfOk result (λ event. Decides (due self.old) self.old (row_at (T.rows table.old)) event self.new) }
        ensures fewer { IfOk result (λ event. event ≡ Working → steps_left self.new < steps_left self.old) }
        ensures same { OnErr result (self.new ≡ self.old) }
        ensures err { OnErr result (T.rows table.new ≡ T.rows table.old) }
        ensures plain { KeepPlain (T.rows table.old) (T.rows table.new) }

        // When each error comes, and the calls of the table.
        ensures cause { HasTableCause (T.failures table.old) (T.failures table.new) result }
        ensures calls { OnOk result (T.made table.new ≡ counted (T.made table.old)) }
        ensures most { (T.made table.new ≡ T.made table.old) ⊎ (T.made table.new ≡ counted (T.made table.old)) }
    {
        if self.key == self.lock.primary {
            return self.drop_own(table);
        }
        match self.primary {
            Primary::Unread => self.read_primary(table),
            Primary::Locked => self.drop_lock_of_primary(table),
            Primary::Gone => self.roll_back(table),
            Primary::Committed(commit) => self.roll_forward(table, commit),
        }
    }
}

impl Recovery {
    /// Takes the lock away from a row that is its own primary.
    fn drop_own<T: RowTable>(&self, table: &mut T) -> Result<RecoveryEvent, TableError>
        requires { due self.now ≡ DropOwn }
        ensures step { IfOk result (λ event. Steps self.now (T.rows table.old) event self.now (T.rows table.new)) }
        ensures err { OnErr result (T.rows table.new ≡ T.rows table.old) }
        ensures cause { HasTableCause (T.failures table.old) (T.failures table.new) result }
        ensures calls { OnOk result (T.made table.new ≡ counted (T.made table.old)) }
        ensures most { (T.made table.new ≡ T.made table.old) ⊎ (T.made table.new ≡ counted (T.made table.old)) }
    {
        let primary = self.lock.primary.as_slice();
        match drop_primary(self.alloc, table, primary, self.lock.start)? {
            Some(_commit) => Ok(RecoveryEvent::RolledForward),
            None => Ok(RecoveryEvent::RolledBack),
        }
    }

    /// Looks at the primary.
    fn read_primary<T: RowTable>(&mut self, table: &mut T) -> Result<RecoveryEvent, TableError>
        requires { due self.old ≡ ReadPrimary }
        ensures step { IfOk result (λ event. Steps self.old (T.rows table.old) event self.new (T.rows table.new)) }
        ensures err { OnErr result (T.rows table.new ≡ T.rows table.old) }
        ensures cause { HasTableCause (T.failures table.old) (T.failures table.new) result }
        ensures calls { OnOk result (T.made table.new ≡ counted (T.made table.old)) }
        ensures most { (T.made table.new ≡ T.made table.old) ⊎ (T.made table.new ≡ counted (T.made table.old)) }
        ensures same { OnErr result (self.new ≡ self.old) }
    {
        self.primary = read_primary(table, self.lock.primary.as_slice(), self.lock.start)?;
        Ok(RecoveryEvent::Working)
    }

    /// Takes the lock of the primary away.
    fn drop_lock_of_primary<T: RowTable>(
        &mut self,
        table: &mut T,
    ) -> Result<RecoveryEvent, TableError>
        requires { due self.old ≡ DropPrimary }
        ensures step { IfOk result (λ event. Steps self.old (T.rows table.old) event self.new (T.rows table.new)) }
        ensures err { OnErr result (T.rows table.new ≡ T.rows table.old) }
        ensures cause { HasTableCause (T.failures table.old) (T.failures table.new) result }
        ensures calls { OnOk result (T.made table.new ≡ counted (T.made table.old)) }
        ensures most { (T.made table.new ≡ T.made table.old) ⊎ (T.made table.new ≡ counted (T.made table.old)) }
        ensures same { OnErr result (self.new ≡ self.old) }
    {
        let primary = self.lock.primary.as_slice();
        let commit = drop_primary(self.alloc, table, primary, self.lock.start)?;
        self.primary = Primary::of(commit);
        Ok(RecoveryEvent::Working)
    }

    /// Makes the lock that was met a version.
    fn roll_forward<T: RowTable>(
        &self,
        table: &mut T,
        commit: u64,
    ) -> Result<RecoveryEvent, TableError>
        requires { due self.now ≡ RollForward commit }
        ensures step { IfOk result (λ event. Steps self.now (T.rows table.old) event self.now (T.rows table.new)) }
        ensures err { OnErr result (T.rows table.new ≡ T.rows table.old) }
        ensures cause { HasTableCause (T.failures table.old) (T.failures table.new) result }
        ensures calls { OnOk result (T.made table.new ≡ counted (T.made table.old)) }
        ensures most { (T.made table.new ≡ T.made table.old) ⊎ (T.made table.new ≡ counted (T.made table.old)) }
    {
        let act = roll_forward_row(self.alloc, &self.lock, commit)?;
        act.carry_out(table, self.key.as_slice())?;
        Ok(RecoveryEvent::RolledForward)
    }

    /// Takes the lock that was met away.
    fn roll_back<T: RowTable>(&self, table: &mut T) -> Result<RecoveryEvent, TableError>
        requires { due self.now ≡ RollBack }
        ensures step { IfOk result (λ event. Steps self.now (T.rows table.old) event self.now (T.rows table.new)) }
        ensures err { OnErr result (T.rows table.new ≡ T.rows table.old) }
        ensures cause { HasTableCause (T.failures table.old) (T.failures table.new) result }
        ensures calls { OnOk result (T.made table.new ≡ counted (T.made table.old)) }
        ensures most { (T.made table.new ≡ T.made table.old) ⊎ (T.made table.new ≡ counted (T.made table.old)) }
    {
        let act = roll_back_row(self.alloc, self.lock.start)?;
        act.carry_out(table, self.key.as_slice())?;
        Ok(RecoveryEvent::RolledBack)
    }
}
