use crate::small::small;
use pcj_case_lines::{Answer, Unanswered, number, size, word};
use pcj_model::{Event, Line, push_line, push_lines};
use pcj_script::{ScriptError, ScriptKind};
use pcj_term::{Bytes, TryClone};
use std::alloc::Global;

/// `push_said FRONT LINE`: what stands, with a line of a transcript behind it. `push_twice FRONT LINE`: with two.
pub(crate) fn said_case(
    alloc: Global,
    out: &mut Answer,
    call: &str,
    arguments: &[Bytes],
) -> Result<(), Unanswered> {
    let [front, fields @ ..] = arguments else {
        return Err(Unanswered::NoCase);
    };
    let line = line(fields)?;
    let mut text = front.try_clone(alloc)?;
    match call {
        "push_said" => push_line(alloc, &mut text, line)?,
        _ => push_lines(alloc, &mut text, &[line, line])?,
    }
    out.bytes(text.as_slice())
}

/// The line of a kind and its fields.
fn line(fields: &[Bytes]) -> Result<Line<'_>, Unanswered> {
    match fields {
        [kind] => alone(word(kind)),
        [kind, field] => of_one(word(kind), field),
        [kind, first, second] => of_two(word(kind), first, second),
        [kind, client, first, second] => of_three(word(kind), small(client)?, first, second),
        _ => Err(Unanswered::NoCase),
    }
}

fn alone(kind: &str) -> Result<Line<'_>, Unanswered> {
    match kind {
        "all_crashed" => Ok(Line::AllCrashed),
        "oracle_crashed" => Ok(Line::OracleCrashed),
        "status_fault" => Ok(Line::StatusFault),
        "answers_fault" => Ok(Line::AnswersFault),
        "scan_fault" => Ok(Line::ScanFault),
        "spent" => Ok(Line::Spent),
        _ => Err(Unanswered::NoCase),
    }
}

fn of_one<'a>(kind: &str, field: &'a Bytes) -> Result<Line<'a>, Unanswered> {
    match kind {
        "row" => Ok(Line::Row(field.as_slice())),
        "rows" => Ok(Line::Rows(size(field)?)),
        "no_query" => Ok(Line::NoQuery(field.as_slice())),
        _ => Ok(Line::Client {
            client: small(field)?,
            event: event(kind)?,
        }),
    }
}

fn event<'a>(kind: &str) -> Result<Event<'a>, Unanswered> {
    match kind {
        "busy" => Ok(Event::Busy),
        "done" => Ok(Event::Done),
        "aborted" => Ok(Event::Aborted),
        "taken" => Ok(Event::Taken),
        "nothing" => Ok(Event::Nothing),
        "fault" => Ok(Event::Fault),
        "crashed" => Ok(Event::Crashed),
        _ => Err(Unanswered::NoCase),
    }
}

fn of_two<'a>(kind: &str, first: &Bytes, second: &Bytes) -> Result<Line<'a>, Unanswered> {
    match kind {
        "status" => Ok(Line::Status {
            notifications: number(first)?,
            locks: number(second)?,
        }),
        "scan_refused" => Ok(Line::ScanRefused {
            place: number(first)?,
            kind: small(second)?,
        }),
        "script" => Ok(Line::Script(ScriptError {
            line: number(first)?,
            kind: kind_of(word(second))?,
        })),
        "committed" => Ok(Line::Client {
            client: small(first)?,
            event: Event::Committed(number(second)?),
        }),
        "steps" => Ok(Line::Client {
            client: small(first)?,
            event: Event::Steps(number(second)?),
        }),
        _ => Err(Unanswered::NoCase),
    }
}

fn kind_of(name: &str) -> Result<ScriptKind, Unanswered> {
    match name {
        "UnknownCommand" => Ok(ScriptKind::UnknownCommand),
        "BadActor" => Ok(ScriptKind::BadActor),
        "BadNumber" => Ok(ScriptKind::BadNumber),
        "BadName" => Ok(ScriptKind::BadName),
        "MissingEnd" => Ok(ScriptKind::MissingEnd),
        "TooLong" => Ok(ScriptKind::TooLong),
        "TooMuch" => Ok(ScriptKind::TooMuch),
        _ => Err(Unanswered::NoCase),
    }
}

fn of_three<'a>(
    kind: &str,
    client: u8,
    first: &Bytes,
    second: &'a Bytes,
) -> Result<Line<'a>, Unanswered> {
    let first = number(first)?;
    let event = match kind {
        "loaded" => Event::Loaded {
            number: first,
            triples: size(second)?,
        },
        "registered" => Event::Registered {
            number: first,
            name: second.as_slice(),
        },
        "refused" => Event::Refused {
            place: first,
            kind: small(second)?,
        },
        _ => return Err(Unanswered::NoCase),
    };
    Ok(Line::Client { client, event })
}
