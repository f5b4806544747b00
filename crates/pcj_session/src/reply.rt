ghost use Rattle.std.specs.Prelude.{◌≡◌, ◌++◌, [], ◌∷◌, map, IfOk, OnOk};
ghost use Rattle.pcj_model.specs.Job.{commit_events};
ghost use Rattle.pcj_model.specs.Line.{event_of, printed};
ghost use Rattle.pcj_model.specs.Line.Line.{Client};
ghost use Rattle.pcj_model.specs.Reply.{answer_lines};
ghost use Rattle.pcj_session.specs.Lines.{end_events, lines_of, told_lines};

use pcj_clients::{Stepped, StepsEnd};
use pcj_model::{Event, Line, push_line};
use pcj_term::{Bytes, Items, Memory};
use std::alloc::Global;

/// What a command answers.
#[derive(Drop)]
pub enum Reply<'a> {
    /// One line.
    One(Line<'a>),
    /// Two lines.
    Two(Line<'a>, Line<'a>),
    /// What a client's steps came to: its commit, how they ended, and how many were tried.
    Steps { client: u8, stepped: Stepped },
    /// The rows of an answer, as they are printed, and how many they are.
    Rows(Items<Bytes>),
}

impl Reply<'_> {
    /// The lines, as they are written, each with its LF.
    pub fn print(&self, alloc: Global) -> Result<Bytes, Memory>
        ensures { IfOk result (λ text. text ≡ printed (lines_of self.now)) }
    {
        let mut text = Bytes::new(alloc);
        match self {
            Reply::One(line) => push_line(alloc, &mut text, *line)?,
            Reply::Two(first, second) => {
                push_line(alloc, &mut text, *first)?;
                push_line(alloc, &mut text, *second)?;
            }
            Reply::Steps { client, stepped } => push_steps(alloc, &mut text, *client, *stepped)?,
            Reply::Rows(rows) => push_rows(alloc, &mut text, rows.as_slice())?,
        }
        Ok(text)
    }
}

/// Adds what a client's steps came to.
fn push_steps(alloc: Global, out: &mut Bytes, client: u8, stepped: Stepped) -> Result<(), Memory>
    ensures { OnOk result (out.new ≡ out.old ++ printed (told_lines client stepped)) }
{
    push_commit(alloc, out, client, stepped.commit)?;
    push_end(alloc, out, client, stepped.end)?;
    push_event(alloc, out, client, Event::Steps(stepped.count))
}

/// Adds a client's commit, if there is one.
fn push_commit(
    alloc: Global,
    out: &mut Bytes,
    client: u8,
    commit: Option<u64>,
) -> Result<(), Memory>
    ensures { OnOk result (out.new ≡ out.old ++ printed (map (Client client) (commit_events commit))) }
{
    match commit {
        None => Ok(()),
        Some(commit) => push_event(alloc, out, client, Event::Committed(commit)),
    }
}

/// Adds what is said of how a client's steps ended, if anything.
fn push_end(alloc: Global, out: &mut Bytes, client: u8, end: StepsEnd) -> Result<(), Memory>
    ensures { OnOk result (out.new ≡ out.old ++ printed (map (Client client) (end_events end))) }
{
    match end {
        StepsEnd::AllMade | StepsEnd::Spent => Ok(()),
        StepsEnd::Nothing => push_event(alloc, out, client, Event::Nothing),
        StepsEnd::Done => push_event(alloc, out, client, Event::Done),
        StepsEnd::Aborted => push_event(alloc, out, client, Event::Aborted),
        StepsEnd::Taken => push_event(alloc, out, client, Event::Taken),
        StepsEnd::Fault => push_event(alloc, out, client, Event::Fault),
    }
}

fn push_event(alloc: Global, out: &mut Bytes, client: u8, event: Event<'_>) -> Result<(), Memory>
    ensures { OnOk result (out.new ≡ out.old ++ printed (Client client (event_of event.entry) ∷ [])) }
{
    push_line(alloc, out, Line::Client { client, event })
}

/// Adds the rows of an answer, and how many they are.
fn push_rows(alloc: Global, out: &mut Bytes, rows: &[Bytes]) -> Result<(), Memory>
    ensures { OnOk result (out.new ≡ out.old ++ printed (answer_lines rows.now)) }
{
    for row in rows {
        push_line(alloc, out, Line::Row(row.as_slice()))?;
    }
    push_line(alloc, out, Line::Rows(rows.len()))
}
