ghost use Rattle.std.specs.Prelude.{◌≡◌, ◌^◌, List, IfOk, OnErr, IsErrOf};
ghost use Rattle.pcj_term.specs.declared.triple.Triple.{Triple};
ghost use Rattle.pcj_oracle.specs.Clock.{IsClock, next_number};
ghost use Rattle.pcj_oracle.specs.Draw.{Keeps};
ghost use Rattle.pcj_txn.specs.declared.error.TxnError.TheVariants.{Spent};
ghost use Rattle.pcj_txn.specs.Errors.{HasTxnCause, MakesOneCall};
ghost use Rattle.pcj_actor.specs.Progress.{MakesUpTo};
ghost use Rattle.pcj_fit.specs.Queries.{Registration};
ghost use Rattle.pcj_client.specs.Job.{IsJob, loaded};
ghost use Rattle.pcj_client.specs.Events.{IsDrawing, IsMoved, IsTold, CommitsOnce, KeepsAllSound, LeavesQueries, LeavesTriples, StepsOn, job_calls, triples_after};

use crate::event::JobEvent;
use crate::load_job::LoadJob;
use crate::register_job::RegisterJob;
use pcj_oracle::Oracle;
use pcj_table::RowTable;
use pcj_txn::TxnError;
use std::marker::Model;

/// What a client is at: it loads a document, or registers a query.
#[derive(Drop)]
pub struct Job {
    kind: Kind,
}

#[derive(Drop)]
enum Kind {
    Load(LoadJob),
    Register(RegisterJob),
}

impl Model for Job {
    ghost use Rattle.std.specs.Coded.{codes};
    ghost use Rattle.pcj_expr.specs.contracts.expr.Expr as expr;
    ghost use Rattle.pcj_client.specs.Job.{Job};
    ghost use Rattle.pcj_client.specs.Kinds.{job_in};

    ghost Value = { Job };

    ghost coded = { Prim.hlevel (codes, expr.the_row.coded) };

    ghost view = { λ j. job_in j.kind };
}

impl Job {
    /// A load.
    pub fn load(job: LoadJob) -> Job
        ensures { result ≡ job }
    {
        Job {
            kind: Kind::Load(job),
        }
    }

    /// A registration.
    pub fn register(job: RegisterJob) -> Job
        ensures { result ≡ job }
    {
        Job {
            kind: Kind::Register(job),
        }
    }

    /// Makes a step: at most one call of the table, or one draw.
    pub fn step<T: RowTable>(
        &mut self,
        table: &mut T,
        oracle: &mut Oracle,
    ) -> Result<JobEvent, TxnError>
        requires { IsClock oracle.old (T.rows table.old) }

        // What is told, and whoever else is at work: all stays sound, and the job's triples or its query join with its
        // commit.
        ensures told { IfOk result (λ event. IsTold self.old oracle.old (T.rows table.old) event self.new oracle.new (T.rows table.new)) }
        ensures commit { IfOk result (λ event. CommitsOnce self.old event self.new) }
        ensures sound { KeepsAllSound self.old oracle.old (T.rows table.old) self.new oracle.new (T.rows table.new) }
        ensures triples { (known : List Triple) → IfOk result (λ event. LeavesTriples self.old oracle.old (T.rows table.old) (T.rows table.new) known (triples_after event known (loaded self.old.content))) }
        ensures queries { (known : List Registration) → IfOk result (λ event. LeavesQueries self.old oracle.old (T.rows table.old) (T.rows table.new) known event) }
        ensures content { self.new.content ≡ self.old.content }

        // What the step is to others, and how far it goes, whatever it answers.
        ensures moves { IsMoved self.old oracle.old (T.rows table.old) self.new oracle.new (T.rows table.new) }
        ensures on { StepsOn self.old self.new }
        ensures job { IsJob self.new }

        // What an error leaves.
        ensures same { OnErr result (self.new ≡ self.old) }
        ensures kept { OnErr result (Keeps oracle.old (T.rows table.old) oracle.new (T.rows table.new)) }
        ensures clock { IsClock oracle.new (T.rows table.new) }

        // When each error comes.
        ensures spent { IsErrOf result Spent → next_number oracle.old (T.rows table.old) ≡ 2 ^ 48 }
        ensures spent_draw { IsErrOf result Spent → IsDrawing self.old }
        ensures cause { HasTxnCause (T.failures table.old) (T.failures table.new) result }

        // The calls of the table.
        ensures calls { MakesUpTo (job_calls self.old oracle.old (T.rows table.old)) (T.made table.old) (T.made table.new) }
        ensures one { MakesOneCall oracle.old oracle.new (T.made table.old) (T.made table.new) }
    {
        match &mut self.kind {
            Kind::Load(job) => job.step(table, oracle),
            Kind::Register(job) => job.step(table, oracle),
        }
    }
}
