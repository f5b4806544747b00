ghost use Rattle.std.specs.Prelude.{◌≡◌, ◌++◌, map, OnOk, OnErr};
ghost use Rattle.std.specs.List.{flat_map};
ghost use Rattle.pcj_lines.specs.Lines.{ended, client_name, registered_line};
ghost use Rattle.pcj_script.specs.Kind.{number_of};
ghost use Rattle.pcj_model.specs.Line.{event_of, line_of, event_text, line_text, steps_line, status_line, scan_refused_line, script_line, printed, StandsInPart};

use crate::event::Event;
use crate::line::Line;
use pcj_lines::{push_committed, push_loaded, push_refused, push_rows, push_spent, push_taken};
use pcj_script::{ScriptError, script_number};
use pcj_term::{Bytes, Memory};
use std::alloc::Global;

/// Adds the line with its LF. After want of memory the bytes are as they were.
pub fn push_line(alloc: Global, out: &mut Bytes, line: Line<'_>) -> Result<(), Memory>
    ensures ok { OnOk result (out.new ≡ out.old ++ ended (line_text (line_of line.entry))) }
    ensures err { OnErr result (out.new ≡ out.old) }
{
    match line {
        Line::Client { client, event } => push_event(alloc, out, client, event),
        Line::AllCrashed => out.extend_from_slice(b"all crashed\n"),
        Line::OracleCrashed => out.extend_from_slice(b"oracle crashed\n"),
        Line::Status {
            notifications,
            locks,
        } => push_status(alloc, out, notifications, locks),
        Line::StatusFault => out.extend_from_slice(b"status fault\n"),
        Line::Row(row) => out.extend_from_pieces(&[row, b"\n".as_slice()]),
        Line::Rows(count) => push_rows(alloc, out, count),
        Line::NoQuery(name) => {
            out.extend_from_pieces(&[b"no query ".as_slice(), name, b"\n".as_slice()])
        }
        Line::AnswersFault => out.extend_from_slice(b"answers fault\n"),
        Line::ScanRefused { place, kind } => push_scan_refused(alloc, out, place, kind),
        Line::ScanFault => out.extend_from_slice(b"scan fault\n"),
        Line::Spent => push_spent(out),
        Line::Script(error) => push_refused_line(alloc, out, error),
    }
}

/// Adds the line of a client's event.
fn push_event(alloc: Global, out: &mut Bytes, client: u8, event: Event<'_>) -> Result<(), Memory>
    ensures ok { OnOk result (out.new ≡ out.old ++ ended (event_text client (event_of event.entry))) }
    ensures err { OnErr result (out.new ≡ out.old) }
{
    match event {
        Event::Loaded { number, triples } => push_loaded(alloc, out, client, number, triples),
        Event::Registered { number, name } => push_registered(alloc, out, client, number, name),
        Event::Busy => push_client(alloc, out, client, b" refused busy\n"),
        Event::Refused { place, kind } => push_refused(alloc, out, client, place, kind),
        Event::Committed(number) => push_committed(alloc, out, client, number),
        Event::Done => push_client(alloc, out, client, b" done\n"),
        Event::Aborted => push_client(alloc, out, client, b" aborted\n"),
        Event::Taken => push_taken(alloc, out, client),
        Event::Nothing => push_client(alloc, out, client, b" nothing\n"),
        Event::Fault => push_client(alloc, out, client, b" fault\n"),
        Event::Steps(count) => push_steps(alloc, out, client, count),
        Event::Crashed => push_client(alloc, out, client, b" crashed\n"),
    }
}

/// Adds a client's name, and the bytes behind it.
fn push_client(alloc: Global, out: &mut Bytes, client: u8, rest: &[u8]) -> Result<(), Memory>
    ensures ok { OnOk result (out.new ≡ out.old ++ (client_name client ++ rest.now)) }
    ensures err { OnErr result (out.new ≡ out.old) }
{
    let name = format!(in alloc; "c{client}")?;
    out.extend_from_pieces(&[name.as_bytes(), rest])
}

/// Adds `cN register T NAME`.
fn push_registered(
    alloc: Global,
    out: &mut Bytes,
    client: u8,
    number: u64,
    name: &[u8],
) -> Result<(), Memory>
    ensures ok { OnOk result (out.new ≡ out.old ++ ended (registered_line client number name.now)) }
    ensures err { OnErr result (out.new ≡ out.old) }
{
    let line = format!(in alloc; "c{client} register {number} ")?;
    out.extend_from_pieces(&[line.as_bytes(), name, b"\n".as_slice()])
}

/// Adds `cN steps K`.
fn push_steps(alloc: Global, out: &mut Bytes, client: u8, count: u64) -> Result<(), Memory>
    ensures ok { OnOk result (out.new ≡ out.old ++ ended (steps_line client count)) }
    ensures err { OnErr result (out.new ≡ out.old) }
{
    let line = format!(in alloc; "c{client} steps {count}\n")?;
    out.extend_from_slice(line.as_bytes())
}

/// Adds `notifications K locks L`.
fn push_status(alloc: Global, out: &mut Bytes, notifications: u64, locks: u64) -> Result<(), Memory>
    ensures ok { OnOk result (out.new ≡ out.old ++ ended (status_line notifications locks)) }
    ensures err { OnErr result (out.new ≡ out.old) }
{
    let start = format!(in alloc; "notifications {notifications}")?;
    let end = format!(in alloc; " locks {locks}\n")?;
    out.extend_from_pieces(&[start.as_bytes(), end.as_bytes()])
}

/// Adds `refused AT KIND`.
fn push_scan_refused(alloc: Global, out: &mut Bytes, place: u64, kind: u8) -> Result<(), Memory>
    ensures ok { OnOk result (out.new ≡ out.old ++ ended (scan_refused_line place kind)) }
    ensures err { OnErr result (out.new ≡ out.old) }
{
    let text = format!(in alloc; "refused {place} {kind}\n")?;
    out.extend_from_slice(text.as_bytes())
}

/// Adds `script LINE KIND`.
fn push_refused_line(alloc: Global, out: &mut Bytes, error: ScriptError) -> Result<(), Memory>
    ensures ok { OnOk result (out.new ≡ out.old ++ ended (script_line error.line (number_of error.kind))) }
    ensures err { OnErr result (out.new ≡ out.old) }
{
    let line = error.line;
    let kind = script_number(error.kind);
    let text = format!(in alloc; "script {line} {kind}\n")?;
    out.extend_from_slice(text.as_bytes())
}

/// Adds the lines, one after another. After want of memory some of them may stand, each whole.
pub fn push_lines(alloc: Global, out: &mut Bytes, lines: &[Line<'_>]) -> Result<(), Memory>
    ensures ok { OnOk result (out.new ≡ out.old ++ printed (map line_of lines.now)) }
    ensures err { OnErr result (StandsInPart (map line_of lines.now) out.old out.new) }
{
    for line in lines {
        push_line(alloc, out, *line)?;
    }
    Ok(())
}
