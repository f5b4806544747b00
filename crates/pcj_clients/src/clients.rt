ghost use Rattle.std.specs.Prelude.{◌≡◌, ◌<◌, length, remove, ◌++◌, ◌∷◌, [], List, Some, None, is_some, IfOk, OnOk, OnErr, IsErrOf, ◌^◌, ◌≤◌, IfSome, IfNone};
ghost use Rattle.pcj_term.specs.declared.triple.Triple.{Triple};
ghost use Rattle.pcj_oracle.specs.Clock.{IsClock, next_number};
ghost use Rattle.pcj_oracle.specs.Draw.{Keeps};
ghost use Rattle.pcj_txn.specs.declared.error.TxnError.TheVariants.{Spent};
ghost use Rattle.pcj_txn.specs.Errors.{HasTxnCause, MakesOneCall};
ghost use Rattle.pcj_actor.specs.Progress.{MakesUpTo};
ghost use Rattle.pcj_fit.specs.Queries.{Registration};
ghost use Rattle.pcj_clients.specs.Clients.{IsPlaceOf, is_end, job_of, without_job};
ghost use Rattle.pcj_io.specs.Faults.{Rose};
ghost use Rattle.pcj_clients.specs.declared.stepped.StepsEnd.TheVariants.{Fault};
ghost use Rattle.pcj_clients.specs.Steps.{AreStepsOf, MakesCallsOf, Told, WantsMemory, known_after, no_steps, queries_known_after, stepped_from};
ghost use Rattle.pcj_clients.specs.Laws.{BeginsSound, ChangesQueries, ChangesTriples, DrawsNext, EndsSound, IsClientStep, KeepsAllSound, calls_of, queries_then, triples_then};

use crate::busy::Busy;
use crate::stepped::Stepped;
use pcj_client::{Job, JobEvent};
use pcj_oracle::Oracle;
use pcj_table::RowTable;
use pcj_term::Memory;
use pcj_txn::TxnError;
use std::alloc::Global;
use std::marker::Model;

/// The clients that have a job in flight, each one, in the order in which the jobs began.
#[derive(Drop)]
pub struct Clients {
    busy: Vec<Busy>,
}

impl Model for Clients {
    ghost use Rattle.std.specs.Coded.{codes};
    ghost use Rattle.pcj_expr.specs.contracts.expr.Expr as expr;
    ghost use Rattle.std.specs.Prelude.{◌≡◌, List, true};
    ghost use Rattle.pcj_clients.specs.Clients.{are_apart};
    ghost use Rattle.pcj_clients.specs.declared.busy.Busy.{Busy};

    ghost Value = { List Busy };

    ghost coded = { Prim.hlevel (codes, expr.the_row.coded) };

    ghost view = { λ c. c.busy.items };

    ghost invariant = { λ c. are_apart c.busy.items ≡ true };
}

impl Clients {
    /// No client has a job.
    pub fn new(alloc: Global) -> Clients
        ensures { result ≡ [] }
    {
        Clients {
            busy: Vec::new(alloc),
        }
    }

    /// Whether a client has a job in flight.
    pub fn is_busy(&self, client: u8) -> bool
        ensures { result ≡ is_some (job_of self.now client) }
    {
        place_of(&self.busy, client).is_some()
    }

    /// Gives a job to a client that has none.
    pub fn open(&mut self, client: u8, job: Job) -> Result<(), Memory>
        requires { job_of self.old client ≡ None }
        ensures ok { OnOk result (self.new ≡ self.old ++ (record { client = client; job = job }) ∷ []) }
        ensures err { OnErr result (self.new ≡ self.old) }
        ensures sound { OnOk result (BeginsSound self.old job self.new) }
    {
        self.busy.push(Busy { client, job })?;
        Ok(())
    }

    /// Ends the job of a client where it stands, if it has one.
    pub fn crash(&mut self, client: u8)
        ensures jobs { self.new ≡ without_job self.old client }
        ensures sound { EndsSound self.old self.new }
    {
        if let Some(place) = place_of(&self.busy, client) {
            end(&mut self.busy, place);
        }
    }

    /// Makes a step of a client's job, at most one call of the table or one draw, and ends the job with its last. `None`
    /// where the client has no job.
    pub fn step<T: RowTable>(
        &mut self,
        client: u8,
        table: &mut T,
        oracle: &mut Oracle,
    ) -> Result<Option<JobEvent>, TxnError>
        requires { IsClock oracle.old (T.rows table.old) }

        // What is told, and whoever else is at work: all stays sound, and the job's triples or its query join with its
        // commit.
        ensures told { IfOk result (λ told. IsClientStep (job_of self.old client) client self.old oracle.old (T.rows table.old) told self.new oracle.new (T.rows table.new)) }
        ensures sound { KeepsAllSound self.old oracle.old (T.rows table.old) self.new oracle.new (T.rows table.new) }
        ensures triples { (known : List Triple) → IfOk result (λ told. ChangesTriples self.old oracle.old (T.rows table.old) (T.rows table.new) known (triples_then (job_of self.old client) told known)) }
        ensures queries { (known : List Registration) → IfOk result (λ told. ChangesQueries self.old oracle.old (T.rows table.old) (T.rows table.new) known (queries_then (job_of self.old client) told known)) }

        // What an error leaves.
        ensures same { OnErr result (self.new ≡ self.old) }
        ensures kept { OnErr result (Keeps oracle.old (T.rows table.old) oracle.new (T.rows table.new)) }
        ensures clock { IsClock oracle.new (T.rows table.new) }

        // When each error comes.
        ensures spent { IsErrOf result Spent → next_number oracle.old (T.rows table.old) ≡ 2 ^ 48 }
        ensures spent_draw { IsErrOf result Spent → DrawsNext (job_of self.old client) }
        ensures cause { HasTxnCause (T.failures table.old) (T.failures table.new) result }

        // The calls of the table.
        ensures calls { MakesUpTo (calls_of (job_of self.old client) oracle.old (T.rows table.old)) (T.made table.old) (T.made table.new) }
        ensures one { MakesOneCall oracle.old oracle.new (T.made table.old) (T.made table.new) }
    {
        let Some(place) = place_of(&self.busy, client) else {
            return Ok(None);
        };
        let told = self.busy[place].job.step(table, oracle)?;
        if is_last(&told) {
            end(&mut self.busy, place);
        }
        Ok(Some(told))
    }

    /// Makes steps of a client's job, as many as are asked for, or up to the one that ends the job or fails. After `Memory`
    /// the steps before it stand.
    pub fn steps<T: RowTable>(
        &mut self,
        client: u8,
        most: u64,
        table: &mut T,
        oracle: &mut Oracle,
    ) -> Result<Stepped, Memory>
        requires { IsClock oracle.old (T.rows table.old) }

        // What each step told, what they came to, and whoever else is at work: all stays sound.
        ensures steps { IfOk result (λ stepped. (told : List Told) × (stepped ≡ stepped_from no_steps told) × AreStepsOf client most self.old oracle.old (T.rows table.old) told self.new oracle.new (T.rows table.new) × ((known : List Triple) → ChangesTriples self.old oracle.old (T.rows table.old) (T.rows table.new) known (known_after (job_of self.old client) told known)) × ((known : List Registration) → ChangesQueries self.old oracle.old (T.rows table.old) (T.rows table.new) known (queries_known_after (job_of self.old client) told known))) }
        ensures sound { KeepsAllSound self.old oracle.old (T.rows table.old) self.new oracle.new (T.rows table.new) }
        ensures clock { IsClock oracle.new (T.rows table.new) }

        // What want of memory leaves.
        ensures memory { OnErr result ((told : List Told) × WantsMemory client most self.old oracle.old (T.rows table.old) told self.new oracle.new (T.rows table.new) × ((known : List Triple) → ChangesTriples self.old oracle.old (T.rows table.old) (T.rows table.new) known (known_after (job_of self.old client) told known)) × ((known : List Registration) → ChangesQueries self.old oracle.old (T.rows table.old) (T.rows table.new) known (queries_known_after (job_of self.old client) told known))) }

        // When a fault is told.
        ensures later { T.failures table.old ≤ T.failures table.new }
        ensures fault { IfOk result (λ stepped. stepped.end ≡ Fault → Rose (T.failures table.old) (T.failures table.new)) }

        // The calls of the table: one a step that was tried, and one more for an oracle that is attached.
        ensures calls { IfOk result (λ stepped. MakesCallsOf stepped.count oracle.old oracle.new (T.made table.old) (T.made table.new)) }
        ensures most_calls { MakesCallsOf most oracle.old oracle.new (T.made table.old) (T.made table.new) }
    {
        let mut stepped = Stepped::none();
        let mut goes_on = true;
        while goes_on && stepped.count < most {
            let told = self.step(client, table, oracle);
            goes_on = stepped.take_in(told)?;
        }
        Ok(stepped)
    }

    /// Ends all jobs where they stand.
    pub fn crash_all(&mut self)
        ensures jobs { self.new ≡ [] }
        ensures sound { EndsSound self.old self.new }
    {
        self.busy.clear();
    }
}

/// Ends the job at a place.
fn end(busy: &mut Vec<Busy>, place: usize)
    requires { place < length busy.old.items }
    ensures { busy.new.items ≡ remove busy.old.items place }
{
    busy.remove(place);
}

/// Whether a job ends with this.
fn is_last(told: &JobEvent) -> bool
    ensures { result ≡ is_end told.now }
{
    match told {
        JobEvent::Worked | JobEvent::Committed(_) => false,
        JobEvent::Done | JobEvent::Aborted | JobEvent::Taken => true,
    }
}

/// Where a client's job stands among the others.
fn place_of(busy: &[Busy], client: u8) -> Option<usize>
    ensures some { IfSome result (λ place. IsPlaceOf busy.now client place) }
    ensures none { IfNone result (job_of busy.now client ≡ None) }
{
    for (place, busy) in busy.iter().enumerate() {
        if busy.client == client {
            return Some(place);
        }
    }
    None
}
