ghost use Rattle.std.specs.Prelude.{◌≡◌, ◌≤◌, ◌+◌, ◌^◌, List, IfOk, OnErr, IsErrOf};
ghost use Rattle.pcj_term.specs.declared.triple.Triple.{Triple};
ghost use Rattle.pcj_oracle.specs.Clock.{IsClock, next_number};
ghost use Rattle.pcj_oracle.specs.Draw.{Keeps};
ghost use Rattle.pcj_txn.specs.declared.error.TxnError.TheVariants.{Spent};
ghost use Rattle.pcj_txn.specs.Errors.{HasTxnCause, MakesOneCall};
ghost use Rattle.pcj_moves.specs.Actors.{new_actor};
ghost use Rattle.pcj_actor.specs.Progress.{MakesUpTo};
ghost use Rattle.pcj_actor.specs.declared.event.ActorEvent.TheVariants.{Answered};
ghost use Rattle.pcj_tree.specs.declared.tree.Tree.{Tree};
ghost use Rattle.pcj_tree.specs.Laws.{HasStorableTree};
ghost use Rattle.pcj_tree.specs.Tree.{IsTree, size_of};
ghost use Rattle.pcj_fit.specs.Queries.{Registration};
ghost use Rattle.pcj_client.specs.Job.{IsJob, IsRegisterJob, has_found, loaded};
ghost use Rattle.pcj_client.specs.Begun.{MayBegin, begun, left};
ghost use Rattle.pcj_client.specs.Events.{IsDrawing, IsMoved, IsTold, CommitsOnce, KeepsAllSound, LeavesQueries, LeavesTriples, StepsOn, job_calls, register_event, triples_after};

use crate::event::JobEvent;
use crate::load_job::{is_found, job_event};
use crate::register_writes::{name_key, register_writes};
use pcj_actor::{Actor, ActorEvent};
use pcj_algebra::Query;
use pcj_oracle::Oracle;
use pcj_table::{RowTable, Write};
use pcj_term::{Bytes, Items, Memory};
use pcj_tree::{Tree, build};
use pcj_txn::TxnError;
use std::alloc::Global;
use std::marker::Model;
use std::mem;

/// A registration at work: it reads whether its name is taken, and if it isn't it carries out one transaction that writes the
/// rows of its name, its query and each pattern of it, and a task for each pattern. A lock that it meets it takes away.
#[derive(Drop)]
pub struct RegisterJob {
    alloc: Global,
    actor: Actor,
    name: Bytes,
    tree: Tree,
    writes: Items<Write>,
}

impl Model for RegisterJob {
    ghost use Rattle.std.specs.Coded.{codes};
    ghost use Rattle.pcj_expr.specs.contracts.expr.Expr as expr;
    ghost use Rattle.pcj_client.specs.Job.{Job, Registers, job_of, IsRegistering};

    ghost Value = { Job };

    ghost coded = { Prim.hlevel (codes, expr.the_row.coded) };

    ghost view = { λ j. job_of j.actor (Registers j.name j.tree) };

    ghost invariant = { λ j. IsRegistering j.actor j.name j.tree j.writes };
}

impl RegisterJob {
    /// A registration of this query. Its number is a timestamp that was drawn, and is its start.
    pub fn new(
        alloc: Global,
        registration: u64,
        name: Bytes,
        query: &Query,
    ) -> Result<RegisterJob, Memory>
        requires first { 1 ≤ registration }
        requires storable { HasStorableTree query.now }
        requires size { size_of query.now.pattern + 1 ≤ 128 }
        ensures actor { IfOk result (λ job. job.actor ≡ new_actor registration) }
        ensures job { IfOk result (λ job. (tree : Tree) × IsTree query.now tree × IsRegisterJob job name tree) }
    {
        let tree = build(alloc, query)?;
        let writes = register_writes(alloc, registration, &name, &tree)?;
        let key = name_key(alloc, &name)?;
        let mut actor = Actor::new(alloc, registration);
        actor.get(key);
        Ok(RegisterJob {
            alloc,
            actor,
            name,
            tree,
            writes,
        })
    }

    /// Makes a step: at most one call of the table, or one draw.
    pub fn step<T: RowTable>(
        &mut self,
        table: &mut T,
        oracle: &mut Oracle,
    ) -> Result<JobEvent, TxnError>
        requires { IsClock oracle.old (T.rows table.old) }

        // What is told, and whoever else is at work: all stays sound, and the query joins with its commit and leaves the
        // triples.
        ensures told { IfOk result (λ event. IsTold self.old oracle.old (T.rows table.old) event self.new oracle.new (T.rows table.new)) }
        ensures commit { IfOk result (λ event. CommitsOnce self.old event self.new) }
        ensures sound { KeepsAllSound self.old oracle.old (T.rows table.old) self.new oracle.new (T.rows table.new) }
        ensures triples { (known : List Triple) → IfOk result (λ event. LeavesTriples self.old oracle.old (T.rows table.old) (T.rows table.new) known (triples_after event known (loaded self.old.content))) }
        ensures queries { (known : List Registration) → IfOk result (λ event. LeavesQueries self.old oracle.old (T.rows table.old) (T.rows table.new) known event) }
        ensures content { self.new.content ≡ self.old.content }

        // What the step is to others, and how far it goes, whatever it answers.
        ensures moves { IsMoved self.old oracle.old (T.rows table.old) self.new oracle.new (T.rows table.new) }
        ensures on { StepsOn self.old self.new }
        ensures job { IsJob self.new }

        // What an error leaves.
        ensures same { OnErr result (self.new ≡ self.old) }
        ensures kept { OnErr result (Keeps oracle.old (T.rows table.old) oracle.new (T.rows table.new)) }
        ensures clock { IsClock oracle.new (T.rows table.new) }

        // When each error comes.
        ensures spent { IsErrOf result Spent → next_number oracle.old (T.rows table.old) ≡ 2 ^ 48 }
        ensures spent_draw { IsErrOf result Spent → IsDrawing self.old }
        ensures cause { HasTxnCause (T.failures table.old) (T.failures table.new) result }

        // The calls of the table.
        ensures calls { MakesUpTo (job_calls self.old oracle.old (T.rows table.old)) (T.made table.old) (T.made table.new) }
        ensures one { MakesOneCall oracle.old oracle.new (T.made table.old) (T.made table.new) }
    {
        let event = self.actor.step(table, oracle)?;
        Ok(take_in(self.alloc, &mut self.actor, &mut self.writes, &event))
    }
}

/// Takes in what a step of the actor came to: where the name was read, it is taken, or the writes are carried out.
fn take_in(
    alloc: Global,
    actor: &mut Actor,
    writes: &mut Items<Write>,
    event: &ActorEvent,
) -> JobEvent
    requires { MayBegin event.now actor.old writes.old }
    ensures actor { actor.new ≡ begun event.now actor.old writes.old }
    ensures writes { writes.new ≡ left event.now actor.old writes.old }
    ensures event { result ≡ register_event event.now (has_found actor.old.actor.answers) }
{
    match event {
        ActorEvent::Answered | ActorEvent::Rests => begin(alloc, actor, writes),
        ActorEvent::Writes(event) => job_event(event),
        _ => JobEvent::Worked,
    }
}

/// Carries the writes out, unless the name was found.
fn begin(alloc: Global, actor: &mut Actor, writes: &mut Items<Write>) -> JobEvent
    requires { MayBegin Answered actor.old writes.old }
    ensures actor { actor.new ≡ begun Answered actor.old writes.old }
    ensures writes { writes.new ≡ left Answered actor.old writes.old }
    ensures event { result ≡ register_event Answered (has_found actor.old.actor.answers) }
{
    if is_found(actor.answers().first()) {
        return JobEvent::Taken;
    }
    let all = mem::replace(writes, Items::new(alloc));
    actor.write(all);
    JobEvent::Worked
}
