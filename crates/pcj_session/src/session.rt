ghost use Rattle.std.specs.List.{list_any};
ghost use Rattle.std.specs.Prelude.{◌≡◌, ◌≢◌, ◌≤◌, ◌<◌, ◌+◌, ◌^◌, ℕ, true, false, List, [], ◌∷◌, None, IfOk, IfErr, IsErrOf, OnOk};
ghost use Rattle.pcj_table.specs.Table.{Table, row_at};
ghost use Rattle.pcj_ntriples.specs.Document.{Document};
ghost use Rattle.pcj_oracle.specs.Clock.{IsClock};
ghost use Rattle.pcj_moves.specs.Actors.{Actor};
ghost use Rattle.pcj_clients.specs.Clients.{job_of};
ghost use Rattle.pcj_clients.specs.declared.stepped.StepsEnd.TheVariants as ends;
ghost use Rattle.pcj_pending.specs.Pending.{IsFit};
ghost use Rattle.pcj_script.specs.Commands.{command_of};
ghost use Rattle.pcj_script.specs.Commands.Command.{Answers as AsksAnswers, Crash, Load, Register, Scan, StepClient};
ghost use Rattle.pcj_model.specs.Laws.{AsksSteps, is_fault};
ghost use Rattle.pcj_model.specs.Line.{event_of};
ghost use Rattle.pcj_model.specs.Line.Event.{Fault};
ghost use Rattle.pcj_model.specs.Line.Line.{Client};
ghost use Rattle.pcj_model.specs.Reply.{Language};
ghost use Rattle.pcj_model.specs.State.{State};
ghost use Rattle.pcj_sparql.specs.Query.{QueryText, Refuses};
ghost use Rattle.pcj_tree.specs.Laws.{HasStorableTree};
ghost use Rattle.pcj_tree.specs.Tree.{size_of};
ghost use Rattle.pcj_session.specs.declared.stop.Stop.TheVariants as stops;
ghost use Rattle.pcj_session.specs.Draws.{AreSpent};
ghost use Rattle.pcj_session.specs.Language.{IsSparql};
ghost use Rattle.pcj_session.specs.Lines.{lines_of, rows_told};
ghost use Rattle.pcj_session.specs.Registry.{AreRebuilt, AreRegistrations};
ghost use Rattle.pcj_session.specs.Session.{Answers, Holds, StopsAt, TellsFault, TellsPending, held_first};

use crate::observed::is_observed;
use crate::registry::Registry;
use crate::reply::Reply;
use crate::stop::Stop;
use pcj_algebra::Query;
use pcj_answers::lines_are_one_list;
use pcj_client::{Job, LoadJob, RegisterJob};
use pcj_clients::{Clients, StepsEnd};
use pcj_model::{Event, Line};
use pcj_ntriples::{NtRefusal, nt_number, read_document};
use pcj_oracle::{Oracle, OracleError};
use pcj_pending::pending;
use pcj_rebuild::trees_have_one_query;
use pcj_registrations::Registration;
use pcj_scan::{ScanError, scan};
use pcj_script::{Command, Crashed};
use pcj_sparql::{QueryRefusal, query_number, read_query};
use pcj_stored::queries_can_be_stored;
use pcj_table::{RowTable, TableError};
use pcj_term::{Bytes, Items, Memory, Triple};
use sqlite_items::Boxed;
use std::alloc::Global;
use std::marker::Model;

/// The clients with a job in flight, the registered queries, and the oracle that grants the run's numbers. The triples and the
/// registrations are the table's: a query is kept here as it was read off its tree, or off the text that was registered.
#[derive(Drop)]
pub struct Session {
    clients: Clients,
    registry: Registry,
    oracle: Oracle,
    /// The number that the next load will likely have.
    expected: u64,
}

impl Model for Session {
    ghost use Rattle.pcj_algebra.specs.contracts.pattern.Pattern as pattern;
    ghost use Rattle.pcj_expr.specs.contracts.expr.Expr as expr;
    ghost use Rattle.std.specs.Coded.{codes};
    ghost use Rattle.pcj_session.specs.Session.{Held};

    ghost Value = { Held };

    ghost coded = { Prim.hlevel (codes, pattern.the_row.coded, expr.the_row.coded) };

    ghost view = { λ s. record { clients = s.clients; queries = s.registry.queries; opened = s.registry.opened; oracle = s.oracle } };
}

impl Session {
    /// A session before its first command, over a table that has these registrations. `Memory` comes where there is none for
    /// their queries.
    pub fn new(alloc: Global, registrations: &[Registration]) -> Result<Session, Memory>
        requires { AreRegistrations registrations.now }
        ensures { IfOk result (λ session. AreRebuilt registrations.now session.queries × (session ≡ held_first session.queries)) }
    {
        Ok(Session {
            clients: Clients::new(alloc),
            registry: Registry::new(alloc, registrations)?,
            oracle: Oracle::new(alloc),
            expected: 1,
        })
    }

    /// Carries out a command of a script, and gives what is to be said of it. `Memory` comes where there is none for the
    /// command or its answer, and `Spent` where 2^48 would be drawn for it.
    pub fn answer<'a, T: RowTable>(
        &mut self,
        alloc: Global,
        table: &mut T,
        command: Command<'a>,
    ) -> Result<Reply<'a>, Stop>
        requires clock { IsClock self.old.oracle (T.rows table.old) }
        requires asks { AsksSteps (command_of command) }

        // What is answered, whoever else is at work on the table, and what is left where there is no answer.
        ensures answered { (language : Language) (others : List Actor) (state : State) → IsSparql language → Holds others self.old (T.rows table.old) state →
            IfOk result (Answers language others state (command_of command.entry) self.new (T.rows table.new)) }
        ensures stopped { (language : Language) (others : List Actor) (state : State) → IsSparql language → Holds others self.old (T.rows table.old) state →
            IfErr result (StopsAt language others state (command_of command.entry) self.new (T.rows table.new)) }
        ensures clock { IsClock self.new.oracle (T.rows table.new) }

        // When a fault is told, and when no number is left.
        ensures spent { IsErrOf result stops.Spent → AreSpent self.new.oracle (T.rows table.new) }
        ensures later { T.failures table.old ≤ T.failures table.new }
        ensures fault { IfOk result (TellsFault (T.failures table.old) (T.failures table.new)) }
    {
        match command {
            Command::Load { client, document } => self.load(alloc, table, client, document),
            Command::Register { client, name, text } => {
                self.register(alloc, table, client, name, text)
            }
            Command::StepClient { client, count } => self.step(table, client, count),
            Command::Crash(crashed) => Ok(self.crash(alloc, crashed)),
            Command::Status => status(alloc, table),
            Command::Answers(name) => self.answers(alloc, table, name),
            Command::Scan { text } => self.scan(alloc, table, text),
        }
    }

    /// Begins to load a document.
    fn load<'a, T: RowTable>(
        &mut self,
        alloc: Global,
        table: &mut T,
        client: u8,
        document: &[u8],
    ) -> Result<Reply<'a>, Stop>
        requires { IsClock self.old.oracle (T.rows table.old) }
        ensures answered { (language : Language) (others : List Actor) (state : State) → Holds others self.old (T.rows table.old) state →
            IfOk result (Answers language others state (Load client document.now) self.new (T.rows table.new)) }
        ensures stopped { (language : Language) (others : List Actor) (state : State) → Holds others self.old (T.rows table.old) state →
            IfErr result (StopsAt language others state (Load client document.now) self.new (T.rows table.new)) }
        ensures clock { IsClock self.new.oracle (T.rows table.new) }
        ensures spent { IsErrOf result stops.Spent → AreSpent self.new.oracle (T.rows table.new) }
        ensures later { T.failures table.old ≤ T.failures table.new }
        ensures fault { IfOk result (TellsFault (T.failures table.old) (T.failures table.new)) }
    {
        if self.clients.is_busy(client) {
            let event = Event::Busy;
            return Ok(Reply::One(Line::Client { client, event }));
        }
        let expected = self.expected;
        match read_document(alloc, document, expected) {
            Err(NtRefusal::Memory) => Err(Stop::Memory),
            Err(NtRefusal::Refused(error)) => {
                let place = error.line;
                let kind = nt_number(error.kind);
                let event = Event::Refused { place, kind };
                Ok(Reply::One(Line::Client { client, event }))
            }
            Ok(triples) => self.open(alloc, table, client, document, expected, triples),
        }
    }

    /// Begins to load a document that was read for the number that is expected.
    fn open<'a, T: RowTable>(
        &mut self,
        alloc: Global,
        table: &mut T,
        client: u8,
        document: &[u8],
        expected: u64,
        triples: Items<Triple>,
    ) -> Result<Reply<'a>, Stop>
        requires clock { IsClock self.old.oracle (T.rows table.old) }
        requires free { job_of self.old.clients client ≡ None }
        requires document { Document document.now expected triples }
        ensures answered { (language : Language) (others : List Actor) (state : State) → Holds others self.old (T.rows table.old) state →
            IfOk result (Answers language others state (Load client document.now) self.new (T.rows table.new)) }
        ensures stopped { (language : Language) (others : List Actor) (state : State) → Holds others self.old (T.rows table.old) state →
            IfErr result (StopsAt language others state (Load client document.now) self.new (T.rows table.new)) }
        ensures clock { IsClock self.new.oracle (T.rows table.new) }
        ensures spent { IsErrOf result stops.Spent → AreSpent self.new.oracle (T.rows table.new) }
        ensures later { T.failures table.old ≤ T.failures table.new }
        ensures fault { IfOk result (TellsFault (T.failures table.old) (T.failures table.new)) }
    {
        let number = match self.oracle.draw(table) {
            Ok(number) => number,
            Err(OracleError::Failed) => return Ok(fault_of(client)),
            Err(OracleError::Memory) => return Err(Stop::Memory),
            Err(OracleError::Spent) => return Err(Stop::Spent),
        };
        let triples = read_under(alloc, document, triples, expected, number)?;
        let count = triples.len();
        self.expected = number + 2;
        self.registry.close(client);
        self.clients
            .open(client, Job::load(LoadJob::new(alloc, number, triples)))?;
        let event = Event::Loaded {
            number,
            triples: count,
        };
        Ok(Reply::One(Line::Client { client, event }))
    }

    /// Begins to register the query of a text under a name, if it is the text of one.
    fn register<'a, T: RowTable>(
        &mut self,
        alloc: Global,
        table: &mut T,
        client: u8,
        name: &'a [u8],
        text: &[u8],
    ) -> Result<Reply<'a>, Stop>
        requires { IsClock self.old.oracle (T.rows table.old) }
        ensures answered { (language : Language) (others : List Actor) (state : State) → IsSparql language → Holds others self.old (T.rows table.old) state →
            IfOk result (Answers language others state (Register client name.now text.now) self.new (T.rows table.new)) }
        ensures stopped { (language : Language) (others : List Actor) (state : State) → IsSparql language → Holds others self.old (T.rows table.old) state →
            IfErr result (StopsAt language others state (Register client name.now text.now) self.new (T.rows table.new)) }
        ensures clock { IsClock self.new.oracle (T.rows table.new) }
        ensures spent { IsErrOf result stops.Spent → AreSpent self.new.oracle (T.rows table.new) }
        ensures later { T.failures table.old ≤ T.failures table.new }
        ensures fault { IfOk result (TellsFault (T.failures table.old) (T.failures table.new)) }
    {
        if self.clients.is_busy(client) {
            let event = Event::Busy;
            return Ok(Reply::One(Line::Client { client, event }));
        }
        queries_can_be_stored();
        match read_boxed(alloc, text) {
            Err(QueryRefusal::Memory) => Err(Stop::Memory),
            Err(QueryRefusal::Refused(error)) => {
                let place = error.at;
                let kind = query_number(error.kind);
                let event = Event::Refused { place, kind };
                Ok(Reply::One(Line::Client { client, event }))
            }
            Ok(query) => self.register_query(alloc, table, client, name, query),
        }
    }

    /// Begins to register a query, where it has observers.
    fn register_query<'a, T: RowTable>(
        &mut self,
        alloc: Global,
        table: &mut T,
        client: u8,
        name: &'a [u8],
        query: Boxed<Query>,
    ) -> Result<Reply<'a>, Stop>
        requires clock { IsClock self.old.oracle (T.rows table.old) }
        requires free { job_of self.old.clients client ≡ None }
        requires storable { HasStorableTree query }
        requires few { size_of query.pattern + 1 ≤ 128 }
        ensures answered { (language : Language) (others : List Actor) (state : State) (text : List ℕ) → IsSparql language → QueryText text query → Holds others self.old (T.rows table.old) state →
            IfOk result (Answers language others state (Register client name.now text) self.new (T.rows table.new)) }
        ensures stopped { (language : Language) (others : List Actor) (state : State) (text : List ℕ) → IsSparql language → QueryText text query → Holds others self.old (T.rows table.old) state →
            IfErr result (StopsAt language others state (Register client name.now text) self.new (T.rows table.new)) }
        ensures clock { IsClock self.new.oracle (T.rows table.new) }
        ensures spent { IsErrOf result stops.Spent → AreSpent self.new.oracle (T.rows table.new) }
        ensures later { T.failures table.old ≤ T.failures table.new }
        ensures fault { IfOk result (TellsFault (T.failures table.old) (T.failures table.new)) }
    {
        if !is_observed(query.get()) {
            let event = Event::Refused { place: 0, kind: 2 };
            return Ok(Reply::One(Line::Client { client, event }));
        }
        let number = match self.oracle.draw(table) {
            Ok(number) => number,
            Err(OracleError::Failed) => return Ok(fault_of(client)),
            Err(OracleError::Memory) => return Err(Stop::Memory),
            Err(OracleError::Spent) => return Err(Stop::Spent),
        };
        let job = RegisterJob::new(alloc, number, Bytes::from_slice(alloc, name)?, query.get())?;
        self.registry
            .open(client, Bytes::from_slice(alloc, name)?, query)?;
        self.clients.open(client, Job::register(job))?;
        let event = Event::Registered { number, name };
        Ok(Reply::One(Line::Client { client, event }))
    }

    /// Makes steps of a client's job. A registration that they commit is kept from then on.
    fn step<'a, T: RowTable>(
        &mut self,
        table: &mut T,
        client: u8,
        count: u32,
    ) -> Result<Reply<'a>, Stop>
        requires clock { IsClock self.old.oracle (T.rows table.old) }
        requires asks { 1 ≤ count }
        ensures answered { (language : Language) (others : List Actor) (state : State) → Holds others self.old (T.rows table.old) state →
            IfOk result (Answers language others state (StepClient client count) self.new (T.rows table.new)) }
        ensures stopped { (language : Language) (others : List Actor) (state : State) → Holds others self.old (T.rows table.old) state →
            IfErr result (StopsAt language others state (StepClient client count) self.new (T.rows table.new)) }
        ensures clock { IsClock self.new.oracle (T.rows table.new) }
        ensures spent { IsErrOf result stops.Spent → AreSpent self.new.oracle (T.rows table.new) }
        ensures later { T.failures table.old ≤ T.failures table.new }
        ensures fault { IfOk result (TellsFault (T.failures table.old) (T.failures table.new)) }
    {
        if !self.clients.is_busy(client) {
            return Ok(both_of(client, Event::Nothing, Event::Steps(0)));
        }
        self.registry.reserve()?;
        let most = u64::from(count);
        let stepped = self.clients.steps(client, most, table, &mut self.oracle)?;
        if is_spent(stepped.end) {
            return Err(Stop::Spent);
        }
        self.registry.keep(client, stepped.commit);
        Ok(Reply::Steps { client, stepped })
    }

    /// Ends somebody's work where it stands.
    fn crash<'a>(&mut self, alloc: Global, crashed: Crashed) -> Reply<'a>
        ensures answered { (language : Language) (others : List Actor) (state : State) (table : Table) → IsClock self.old.oracle table → Holds others self.old table state →
            Answers language others state (Crash crashed) self.new table result }
        ensures clock { (table : Table) → IsClock self.old.oracle table → IsClock self.new.oracle table }
        ensures fault { list_any is_fault (lines_of result) ≡ false }
    {
        match crashed {
            Crashed::Client(client) => {
                self.clients.crash(client);
                let event = Event::Crashed;
                Reply::One(Line::Client { client, event })
            }
            Crashed::All => {
                self.clients.crash_all();
                self.oracle = Oracle::new(alloc);
                Reply::One(Line::AllCrashed)
            }
            Crashed::Oracle => {
                self.oracle = Oracle::new(alloc);
                Reply::One(Line::OracleCrashed)
            }
        }
    }

    /// Answers the query that is registered under a name.
    fn answers<'a, T: RowTable>(
        &mut self,
        alloc: Global,
        table: &mut T,
        name: &'a [u8],
    ) -> Result<Reply<'a>, Stop>
        requires { IsClock self.old.oracle (T.rows table.old) }
        ensures answered { (language : Language) (others : List Actor) (state : State) → IsSparql language → Holds others self.old (T.rows table.old) state →
            IfOk result (Answers language others state (AsksAnswers name.now) self.new (T.rows table.new)) }
        ensures stopped { (language : Language) (others : List Actor) (state : State) → IsSparql language → Holds others self.old (T.rows table.old) state →
            IfErr result (StopsAt language others state (AsksAnswers name.now) self.new (T.rows table.new)) }
        ensures clock { IsClock self.new.oracle (T.rows table.new) }
        ensures spent { IsErrOf result stops.Spent → AreSpent self.new.oracle (T.rows table.new) }
        ensures later { T.failures table.old ≤ T.failures table.new }
        ensures fault { IfOk result (TellsFault (T.failures table.old) (T.failures table.new)) }
    {
        lines_are_one_list();
        trees_have_one_query();
        let key = Bytes::from_slice(alloc, name)?;
        match self.registry.named(&key) {
            None => Ok(Reply::One(Line::NoQuery(name))),
            Some(query) => {
                let rows = scan(alloc, query, table, &mut self.oracle);
                rows_reply(rows, Line::AnswersFault)
            }
        }
    }

    /// Answers the query of a text, if it is the text of one.
    fn scan<'a, T: RowTable>(
        &mut self,
        alloc: Global,
        table: &mut T,
        text: &[u8],
    ) -> Result<Reply<'a>, Stop>
        requires { IsClock self.old.oracle (T.rows table.old) }
        ensures answered { (language : Language) (others : List Actor) (state : State) → IsSparql language → Holds others self.old (T.rows table.old) state →
            IfOk result (Answers language others state (Scan text.now) self.new (T.rows table.new)) }
        ensures stopped { (language : Language) (others : List Actor) (state : State) → IsSparql language → Holds others self.old (T.rows table.old) state →
            IfErr result (StopsAt language others state (Scan text.now) self.new (T.rows table.new)) }
        ensures clock { IsClock self.new.oracle (T.rows table.new) }
        ensures spent { IsErrOf result stops.Spent → AreSpent self.new.oracle (T.rows table.new) }
        ensures later { T.failures table.old ≤ T.failures table.new }
        ensures fault { IfOk result (TellsFault (T.failures table.old) (T.failures table.new)) }
    {
        lines_are_one_list();
        match read_boxed(alloc, text) {
            Err(QueryRefusal::Memory) => Err(Stop::Memory),
            Err(QueryRefusal::Refused(error)) => {
                let place = error.at;
                let kind = query_number(error.kind);
                Ok(Reply::One(Line::ScanRefused { place, kind }))
            }
            Ok(query) => {
                let rows = scan(alloc, query.get(), table, &mut self.oracle);
                rows_reply(rows, Line::ScanFault)
            }
        }
    }
}

/// Whether the last of some steps would draw 2^48.
fn is_spent(end: StepsEnd) -> bool
    ensures yes { result ≡ true → end ≡ ends.Spent }
    ensures no { result ≡ false → end ≢ ends.Spent }
{
    match end {
        StepsEnd::Spent => true,
        StepsEnd::AllMade
        | StepsEnd::Nothing
        | StepsEnd::Done
        | StepsEnd::Aborted
        | StepsEnd::Taken
        | StepsEnd::Fault => false,
    }
}

/// Tells what is pending in a table.
fn status<'a, T: RowTable>(alloc: Global, table: &mut T) -> Result<Reply<'a>, Stop>
    ensures told { IsFit (row_at (T.rows table.old)) → IfOk result (TellsPending (T.rows table.old)) }
    ensures same { T.rows table.new ≡ T.rows table.old }
    ensures memory { IfErr result (λ stop. stop ≡ stops.Memory) }
    ensures later { T.failures table.old ≤ T.failures table.new }
    ensures fault { IfOk result (TellsFault (T.failures table.old) (T.failures table.new)) }
{
    match pending(alloc, table) {
        Ok(pending) => Ok(Reply::One(Line::Status {
            notifications: pending.notifications,
            locks: pending.locks,
        })),
        Err(TableError::Failed) => Ok(Reply::One(Line::StatusFault)),
        Err(TableError::Memory) => Err(Stop::Memory),
    }
}

/// What is said where no number could be drawn for a client.
fn fault_of<'a>(client: u8) -> Reply<'a>
    ensures { lines_of result ≡ Client client Fault ∷ [] }
{
    let event = Event::Fault;
    Reply::One(Line::Client { client, event })
}

/// Two events of a client.
fn both_of<'a>(client: u8, first: Event<'a>, second: Event<'a>) -> Reply<'a>
    ensures { lines_of result ≡ Client client (event_of first.entry) ∷ Client client (event_of second.entry) ∷ [] }
{
    Reply::Two(
        Line::Client {
            client,
            event: first,
        },
        Line::Client {
            client,
            event: second,
        },
    )
}

/// The rows of a scan as a reply, with the line of its fault.
fn rows_reply<'a>(rows: Result<Items<Bytes>, ScanError>, fault: Line<'a>) -> Result<Reply<'a>, Stop>
    ensures { result ≡ rows_told fault.entry rows }
{
    match rows {
        Ok(rows) => Ok(Reply::Rows(rows)),
        Err(ScanError::Failed) => Ok(Reply::One(fault)),
        Err(ScanError::Memory) => Err(Stop::Memory),
        Err(ScanError::Spent) => Err(Stop::Spent),
    }
}

/// The query of a text, in a box of its own: what owns it lets go of it by one call.
fn read_boxed(alloc: Global, text: &[u8]) -> Result<Boxed<Query>, QueryRefusal>
    ensures query { IfOk result (QueryText text.now) }
    ensures refused { IfErr result (Refuses text.now) }
{
    let query = read_query(alloc, text)?;
    match Boxed::new(alloc, query) {
        Ok(query) => Ok(query),
        Err(_) => Err(QueryRefusal::Memory),
    }
}

/// The triples of a document for the load of a number. It was read for another one, or this.
fn read_under(
    alloc: Global,
    document: &[u8],
    triples: Items<Triple>,
    read: u64,
    number: u64,
) -> Result<Items<Triple>, Memory>
    requires { Document document.now read triples }
    ensures { IfOk result (Document document.now number) }
{
    if read == number {
        return Ok(triples);
    }
    match read_document(alloc, document, number) {
        Ok(triples) => Ok(triples),
        Err(NtRefusal::Memory) => Err(Memory),
        Err(NtRefusal::Refused(_error)) => unreachable!(),
    }
}
