ghost use Rattle.std.specs.Prelude.{◌≡◌, ◌^◌, List, Ok, IfOk, IfErr, OnOk, OnErr, IsErrOf};
ghost use Rattle.pcj_term.specs.declared.triple.Triple.{Triple};
ghost use Rattle.pcj_oracle.specs.Clock.{IsClock, next_number};
ghost use Rattle.pcj_oracle.specs.Draw.{Keeps};
ghost use Rattle.pcj_table.specs.declared.error.TableError.TheVariants as table_error;
ghost use Rattle.pcj_txn.specs.declared.error.TxnError.TheVariants.{Spent};
ghost use Rattle.pcj_txn.specs.Errors.{HasTxnCause, MakesOneCall};
ghost use Rattle.pcj_moves.specs.Actors.{new_actor};
ghost use Rattle.std.specs.Option.{option_copied};
ghost use Rattle.pcj_actor.specs.declared.event.ActorEvent.TheVariants.{Answered};
ghost use Rattle.pcj_actor.specs.Progress.{MakesUpTo, Progress};
ghost use Rattle.pcj_rows.specs.Plans.{IsLoad};
ghost use Rattle.pcj_fit.specs.Queries.{Registration};
ghost use Rattle.pcj_client.specs.Job.{IsAtWork, IsBusy, IsJob, IsLoadJob, Loads, HasStepped, GoesOn, is_found, kept_writes, loaded, writing_of};
ghost use Rattle.pcj_client.specs.Events.{IsDrawing, IsMoved, IsTold, CommitsOnce, KeepsAllSound, LeavesQueries, LeavesTriples, StepsOn, job_calls, triples_after, event_of, job_event};

use crate::event::JobEvent;
use crate::writes::add_writes;
use pcj_actor::{Actor, ActorEvent};
use pcj_moves::Answer;
use pcj_oracle::Oracle;
use pcj_table::{RowTable, TableError, Write};
use pcj_term::{Items, Triple};
use pcj_txn::{TxnError, TxnEvent};
use std::alloc::Global;
use std::marker::Model;
use std::mem;

/// A load at work: it reads of each of its triples whether it is there, and then carries out one transaction that writes
/// the rows of those that aren't, and a task for each. A lock that it meets it takes away.
#[derive(Drop)]
pub struct LoadJob {
    alloc: Global,
    actor: Actor,
    triples: Items<Triple>,
    writes: Vec<Write>,
    kept: Option<usize>,
}

impl Model for LoadJob {
    ghost use Rattle.std.specs.Coded.{codes};
    ghost use Rattle.pcj_expr.specs.contracts.expr.Expr as expr;
    ghost use Rattle.pcj_client.specs.Job.{Job, Loads, job_of, IsAtWork};

    ghost Value = { Job };

    ghost coded = { Prim.hlevel (codes, expr.the_row.coded) };

    ghost view = { λ j. job_of j.actor (Loads j.triples) };

    ghost invariant = { λ j. IsAtWork j.actor j.triples j.writes.items j.kept };
}

impl LoadJob {
    /// A load of these triples. Its number is a timestamp that was drawn: it is the load's start, and that of its blank
    /// nodes.
    pub fn new(alloc: Global, load: u64, triples: Items<Triple>) -> LoadJob
        requires { IsLoad load triples }
        ensures actor { result.actor ≡ new_actor load }
        ensures job { IsLoadJob result triples }
    {
        let mut actor = Actor::new(alloc, load);
        if triples.is_empty() {
            actor.write(Items::new(alloc));
        }
        LoadJob {
            alloc,
            actor,
            triples,
            writes: Vec::new(alloc),
            kept: None,
        }
    }

    /// Makes a step: at most one call of the table, or one draw.
    pub fn step<T: RowTable>(
        &mut self,
        table: &mut T,
        oracle: &mut Oracle,
    ) -> Result<JobEvent, TxnError>
        requires { IsClock oracle.old (T.rows table.old) }

        // What is told, and whoever else is at work: all stays sound, and the load's triples join with its commit and
        // leave the queries.
        ensures told { IfOk result (λ event. IsTold self.old oracle.old (T.rows table.old) event self.new oracle.new (T.rows table.new)) }
        ensures commit { IfOk result (λ event. CommitsOnce self.old event self.new) }
        ensures sound { KeepsAllSound self.old oracle.old (T.rows table.old) self.new oracle.new (T.rows table.new) }
        ensures triples { (known : List Triple) → IfOk result (λ event. LeavesTriples self.old oracle.old (T.rows table.old) (T.rows table.new) known (triples_after event known (loaded self.old.content))) }
        ensures queries { (known : List Registration) → IfOk result (λ event. LeavesQueries self.old oracle.old (T.rows table.old) (T.rows table.new) known event) }
        ensures content { self.new.content ≡ self.old.content }

        // What the step is to others, and how far it goes, whatever it answers.
        ensures moves { IsMoved self.old oracle.old (T.rows table.old) self.new oracle.new (T.rows table.new) }
        ensures on { StepsOn self.old self.new }
        ensures job { IsJob self.new }

        // What an error leaves.
        ensures same { OnErr result (self.new ≡ self.old) }
        ensures kept { OnErr result (Keeps oracle.old (T.rows table.old) oracle.new (T.rows table.new)) }
        ensures clock { IsClock oracle.new (T.rows table.new) }

        // When each error comes.
        ensures spent { IsErrOf result Spent → next_number oracle.old (T.rows table.old) ≡ 2 ^ 48 }
        ensures spent_draw { IsErrOf result Spent → IsDrawing self.old }
        ensures cause { HasTxnCause (T.failures table.old) (T.failures table.new) result }

        // The calls of the table.
        ensures calls { MakesUpTo (job_calls self.old oracle.old (T.rows table.old)) (T.made table.old) (T.made table.new) }
        ensures one { MakesOneCall oracle.old oracle.new (T.made table.old) (T.made table.new) }
    {
        ask(
            self.alloc,
            &mut self.actor,
            self.triples.as_slice(),
            &mut self.writes,
            &mut self.kept,
        )?;
        let event = self.actor.step(table, oracle)?;
        Ok(take_in(
            self.alloc,
            &mut self.actor,
            self.triples.as_slice(),
            &mut self.writes,
            &mut self.kept,
            &event,
        ))
    }
}

/// Reads the row of the next triple, where nothing is carried out. After `Memory` nothing has changed.
fn ask(
    alloc: Global,
    actor: &mut Actor,
    triples: &[Triple],
    writes: &mut Vec<Write>,
    kept: &mut Option<usize>,
) -> Result<(), TableError>
    requires { IsAtWork actor.old triples.now writes.old.items kept.old }
    ensures work { IsAtWork actor.new triples.now writes.new.items kept.new }
    ensures busy { OnOk result (IsBusy actor.new.task) }
    ensures actor { actor.new.actor ≡ actor.old.actor }
    ensures writing { writing_of actor.new.task ≡ writing_of actor.old.task }
    ensures locked { actor.new.locked ≡ actor.old.locked }
    ensures memory { IfErr result (λ error. error ≡ table_error.Memory) }
{
    if kept.is_some() {
        return Ok(());
    }
    let Some(triple) = triples.get(actor.answers().len()) else {
        return Ok(());
    };
    let gathered = writes.len();
    let key = add_writes(alloc, triple, writes)?;
    actor.get(key);
    *kept = Some(gathered);
    Ok(())
}

/// Takes in what a step of the actor came to.
fn take_in(
    alloc: Global,
    actor: &mut Actor,
    triples: &[Triple],
    writes: &mut Vec<Write>,
    kept: &mut Option<usize>,
    event: &ActorEvent,
) -> JobEvent
    requires { HasStepped triples.now writes.old.items kept.old event.now actor.old }
    ensures work { IsAtWork actor.new triples.now writes.new.items kept.new }
    ensures goes_on { GoesOn actor.old actor.new }
    ensures event { result ≡ event_of event.now }
{
    match event {
        ActorEvent::Answered => {
            take_answer(alloc, actor, triples, writes, kept);
            JobEvent::Worked
        }
        ActorEvent::Writes(event) => job_event(event),
        _ => JobEvent::Worked,
    }
}

/// What a transaction's step is to its job.
pub(crate) fn job_event(event: &TxnEvent) -> JobEvent
    ensures { result ≡ job_event event.now }
{
    match event {
        TxnEvent::Committed(commit) => JobEvent::Committed(*commit),
        TxnEvent::Conflict { .. } | TxnEvent::PrimaryLost(_) => JobEvent::Aborted,
        TxnEvent::Done => JobEvent::Done,
        _ => JobEvent::Worked,
    }
}

/// Takes in an answer: the writes of a triple that is there go, and after the last one the writes are carried out.
fn take_answer(
    alloc: Global,
    actor: &mut Actor,
    triples: &[Triple],
    writes: &mut Vec<Write>,
    kept: &mut Option<usize>,
)
    requires { HasStepped triples.now writes.old.items kept.old Answered actor.old }
    ensures work { IsAtWork actor.new triples.now writes.new.items kept.new }
    ensures goes_on { GoesOn actor.old actor.new }
{
    let found = is_found(actor.answers().last());
    let len = kept.take();
    keep(writes, len, found);
    if actor.answers().len() == triples.len() {
        let all = mem::replace(writes, Vec::new(alloc));
        actor.write(Items::from_vec(all));
    }
}

/// Keeps so many of the writes from the front, where the triple that was read is there.
fn keep(writes: &mut Vec<Write>, len: Option<usize>, found: bool)
    ensures { writes.new.items ≡ kept_writes len found writes.old.items }
{
    if let Some(len) = len {
        if found {
            writes.truncate(len);
        }
    }
}

/// Whether the row that was read has a value.
pub(crate) fn is_found(answer: Option<&Answer>) -> bool
    ensures { result ≡ is_found (option_copied answer.entry) }
{
    matches!(answer, Some(Answer::OfRow { found: Some(_), .. }))
}
