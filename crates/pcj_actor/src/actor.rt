ghost use Rattle.std.specs.Prelude.{◌≡◌, ◌≢◌, ◌⊎◌, ℕ, [], ◌∷◌, true, false, is_some, Some, None, Ok, IfOk, OnOk, OnErr, IfErr, IsErrOf, ◌^◌};
ghost use Rattle.pcj_table.specs.declared.lock.Lock.{Lock};
ghost use Rattle.pcj_table.specs.Calls.{counted, HasTableCause};
ghost use Rattle.pcj_table.specs.declared.error.TableError.TheVariants as table_error;
ghost use Rattle.pcj_txn.specs.declared.error.TxnError.TheVariants.{Spent};
ghost use Rattle.pcj_txn.specs.Errors.{HasTxnCause, MakesOneCall};
ghost use Rattle.pcj_table.specs.Table.{Key, row_at};
ghost use Rattle.pcj_oracle.specs.Clock.{IsClock, clock_key, next_number};
ghost use Rattle.pcj_oracle.specs.Draw.{Keeps};
ghost use Rattle.pcj_mvcc.specs.Times.{TimesInOrder};
ghost use Rattle.pcj_moves.specs.declared.answer.Answer.{Answer};
ghost use Rattle.pcj_recover.specs.declared.event.RecoveryEvent.{RecoveryEvent};
ghost use Rattle.pcj_recover.specs.Steps.{KeepPlain};
ghost use Rattle.pcj_moves.specs.Transactions.{new_transaction, are_distinct};
ghost use Rattle.pcj_mvcc.specs.Reading.{Rows};
ghost use Rattle.pcj_moves.specs.Moves.{Makes, Plan};
ghost use Rattle.pcj_txn.specs.Progress.{new_progress as new_txn};
ghost use Rattle.pcj_actor.specs.declared.task.Task.TheVariants as doing;
ghost use Rattle.pcj_actor.specs.declared.told.Told.TheVariants.{Answered, Met};
ghost use Rattle.pcj_actor.specs.Progress.{new_progress, Moved, Carries, IsReading, Recovers, Tells, is_recovery, told_event, MakesUpTo, task_calls, calls_of, with_task, with_held, with_met, IsDrawing};

use crate::ActorEvent;
use crate::put::put_plain;
use crate::task::Task;
use crate::told::{Told, read_range, read_row};
use pcj_encode::KeyRange;
use pcj_moves::Answer;
use pcj_oracle::Oracle;
use pcj_recover::{Recovery, RecoveryEvent};
use pcj_table::{Plain, RowTable, TableError, Write};
use pcj_term::{Bytes, Items};
use pcj_txn::{Txn, TxnError, TxnEvent};
use std::alloc::Global;
use std::marker::Model;

/// A client at work: what it has read at its start, what it carries out, and the lock that it takes away.
#[derive(Drop)]
pub struct Actor {
    alloc: Global,
    start: u64,
    answers: Items<Answer>,
    task: Task,
    recovery: Option<Recovery>,
}

impl Model for Actor {
    ghost use Rattle.pcj_actor.specs.Progress.{Progress, transaction_of, recovery_of, locked_of, IsOfStart};

    ghost Value = { Progress };

    ghost view = { λ a. record { actor = record { start = a.start; answers = a.answers; transaction = transaction_of a.task; recovery = recovery_of a.recovery }; task = a.task; locked = locked_of a.recovery } };

    ghost invariant = { λ a. IsOfStart a.start a.task };
}

impl Actor {
    /// An actor that has read nothing, and has nothing to carry out. Its start is a timestamp that was drawn.
    pub fn new(alloc: Global, start: u64) -> Actor
        ensures { result ≡ new_progress start }
    {
        Actor {
            alloc,
            start,
            answers: Items::new(alloc),
            task: Task::Rest,
            recovery: None,
        }
    }

    /// Reads the row of this key next.
    pub fn get(&mut self, key: Bytes)
        requires { self.old.actor.transaction ≡ new_transaction [] }
        ensures task { self.new ≡ with_task self.old (doing.Get key) }
        ensures same { self.new.actor ≡ self.old.actor }
    {
        self.task = Task::Get(key);
    }

    /// Reads the first row of this range next in which something is seen. No row of the range has a plain value.
    pub fn next(&mut self, range: KeyRange)
        requires { self.old.actor.transaction ≡ new_transaction [] }
        ensures task { self.new ≡ with_task self.old (doing.Next range) }
        ensures same { self.new.actor ≡ self.old.actor }
    {
        self.task = Task::Next(range);
    }

    /// Writes this plain value next on the row of this key, where none of its number or a later one stands. The row isn't
    /// the clock's.
    pub fn put(&mut self, key: Bytes, plain: Plain)
        requires nothing { self.old.actor.transaction ≡ new_transaction [] }
        requires row { key ≢ clock_key }
        ensures task { self.new ≡ with_task self.old (doing.Put key plain) }
        ensures same { self.new.actor ≡ self.old.actor }
    {
        self.task = Task::Put { key, plain };
    }

    /// Carries out a transaction of these writes next, whose rows are distinct. It is the actor's only one.
    pub fn write(&mut self, writes: Items<Write>)
        requires nothing { self.old.actor.transaction ≡ new_transaction [] }
        requires distinct { are_distinct writes ≡ true }
        ensures task { self.new ≡ with_task self.old (doing.Write (new_txn self.old.actor.start writes)) }
        ensures moves { (number : ℕ) (rows : Rows) → Makes (Plan writes ∷ []) number rows self.old.actor number rows self.new.actor }
    {
        self.task = Task::Write(Txn::new(self.alloc, self.start, writes));
    }

    /// What was read so far, in order.
    pub fn answers(&self) -> &[Answer]
        ensures { result.now ≡ self.now.actor.answers }
    {
        self.answers.as_slice()
    }

    /// Makes a step: of the recovery, where a lock was met, and else of what is carried out. Where nothing is, the
    /// answer is `Rests`.
    pub fn step<T: RowTable>(
        &mut self,
        table: &mut T,
        oracle: &mut Oracle,
    ) -> Result<ActorEvent, TxnError>
        requires { IsClock oracle.old (T.rows table.old) }

        // What is told, and that whoever else is at work it is moves that the rules allow.
        ensures tells { IfOk result (λ event. Tells self.old oracle.old (T.rows table.old) event self.new oracle.new (T.rows table.new)) }
        ensures first { IfOk result (λ event. is_recovery event ≡ is_some self.old.actor.recovery) }
        ensures moves { Carries self.old oracle.old (T.rows table.old) self.new oracle.new (T.rows table.new) }

        // What an error leaves.
        ensures same { OnErr result (self.new ≡ self.old) }
        ensures kept { OnErr result (Keeps oracle.old (T.rows table.old) oracle.new (T.rows table.new)) }
        ensures clock { IsClock oracle.new (T.rows table.new) }

        // When each error comes.
        ensures spent { IsErrOf result Spent → next_number oracle.old (T.rows table.old) ≡ 2 ^ 48 }
        ensures spent_draw { IsErrOf result Spent → IsDrawing self.old.task }
        ensures cause { HasTxnCause (T.failures table.old) (T.failures table.new) result }

        // The calls of the table.
        ensures calls { MakesUpTo (calls_of self.old oracle.old (T.rows table.old)) (T.made table.old) (T.made table.new) }
        ensures one { MakesOneCall oracle.old oracle.new (T.made table.old) (T.made table.new) }
    {
        match self.recover(table)? {
            Some(event) => Ok(ActorEvent::Recovers(event)),
            None => self.carry_out(table, oracle),
        }
    }

    /// Makes a step of the recovery, if there is one. With its last step it is gone.
    fn recover<T: RowTable>(&mut self, table: &mut T) -> Result<Option<RecoveryEvent>, TableError>
        ensures moves { (number : ℕ) → TimesInOrder (row_at (T.rows table.old)) → Moved self.old number (T.rows table.old) self.new number (T.rows table.new) }
        ensures same { OnErr result (self.new ≡ self.old) }
        ensures err { OnErr result (T.rows table.new ≡ T.rows table.old) }
        ensures there { OnErr result (is_some self.old.actor.recovery ≡ true) }
        ensures cause { HasTableCause (T.failures table.old) (T.failures table.new) result }
        ensures plain { KeepPlain (T.rows table.old) (T.rows table.new) }
        ensures some { (event : RecoveryEvent) → result ≡ Ok (Some event) → Recovers self.old (T.rows table.old) event self.new (T.rows table.new) }
        ensures most { (T.made table.new ≡ T.made table.old) ⊎ (T.made table.new ≡ counted (T.made table.old)) }
        ensures none { result ≡ Ok None → (self.old.actor.recovery ≡ None) × (self.new ≡ self.old) × (T.rows table.new ≡ T.rows table.old) × (T.made table.new ≡ T.made table.old) }
    {
        let Some(recovery) = &mut self.recovery else {
            return Ok(None);
        };
        match recovery.step(table)? {
            RecoveryEvent::Working => Ok(Some(RecoveryEvent::Working)),
            ended => {
                self.recovery = None;
                Ok(Some(ended))
            }
        }
    }

    /// Makes a step of what is carried out: reads, or makes a step of the transaction.
    fn carry_out<T: RowTable>(
        &mut self,
        table: &mut T,
        oracle: &mut Oracle,
    ) -> Result<ActorEvent, TxnError>
        requires { IsClock oracle.old (T.rows table.old) }
        ensures tells { IfOk result (λ event. Tells self.old oracle.old (T.rows table.old) event self.new oracle.new (T.rows table.new)) }
        ensures other { IfOk result (λ event. is_recovery event ≡ false) }
        ensures moves { Carries self.old oracle.old (T.rows table.old) self.new oracle.new (T.rows table.new) }
        ensures same { OnErr result (self.new ≡ self.old) }
        ensures kept { OnErr result (Keeps oracle.old (T.rows table.old) oracle.new (T.rows table.new)) }
        ensures clock { IsClock oracle.new (T.rows table.new) }
        ensures spent { IsErrOf result Spent → next_number oracle.old (T.rows table.old) ≡ 2 ^ 48 }
        ensures spent_draw { IsErrOf result Spent → IsDrawing self.old.task }
        ensures cause { HasTxnCause (T.failures table.old) (T.failures table.new) result }
        ensures calls { MakesUpTo (task_calls self.old.task oracle.old (T.rows table.old)) (T.made table.old) (T.made table.new) }
        ensures one { MakesOneCall oracle.old oracle.new (T.made table.old) (T.made table.new) }
    {
        match &mut self.task {
            Task::Rest => Ok(ActorEvent::Rests),
            Task::Get(key) => {
                let told = read_row(self.alloc, table, key, self.start)?;
                Ok(self.hold(told)?)
            }
            Task::Next(range) => {
                let told = read_range(self.alloc, table, range, self.start)?;
                Ok(self.hold(told)?)
            }
            Task::Put { key, plain } => {
                let applied = put_plain(self.alloc, table, key, plain)?;
                self.task = Task::Rest;
                Ok(ActorEvent::Put { applied })
            }
            Task::Write(txn) => match txn.step(table, oracle)? {
                TxnEvent::MetLock { key, lock } => {
                    self.recovery = Some(Recovery::new(self.alloc, key, lock));
                    Ok(ActorEvent::Met)
                }
                event => Ok(ActorEvent::Writes(event)),
            },
        }
    }

    /// Holds an answer, or the lock that was met.
    fn hold(&mut self, told: Told) -> Result<ActorEvent, TableError>
        requires { IsReading self.old.task }
        ensures answer { (answer : Answer) → told ≡ Answered answer → OnOk result (self.new ≡ with_held self.old answer) }
        ensures met { (key : Key) (lock : Lock) → told ≡ Met key lock → OnOk result (self.new ≡ with_met self.old key lock) }
        ensures same { OnErr result (self.new ≡ self.old) }
        ensures memory { IfErr result (λ error. error ≡ table_error.Memory) }
        ensures event { IfOk result (λ event. event ≡ told_event told) }
    {
        match told {
            Told::Answered(answer) => {
                self.answers.push(answer)?;
                self.task = Task::Rest;
                Ok(ActorEvent::Answered)
            }
            Told::Met { key, lock } => {
                self.recovery = Some(Recovery::new(self.alloc, key, lock));
                Ok(ActorEvent::Met)
            }
        }
    }
}
