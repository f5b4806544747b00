ghost use Rattle.std.specs.Prelude.{◌≡◌, ◌⊎◌, ◌≤◌, ◌<◌, ◌+◌, ◌^◌, false, List, [], ◌∷◌, length, IfOk, IfErr, IsErrOf};
ghost use Rattle.pcj_oracle.specs.Clock.{IsClock, stored_number};
ghost use Rattle.pcj_script.specs.Commands.{Command};
ghost use Rattle.pcj_script.specs.Script.{Ending as ScriptEnding, Spells};
ghost use Rattle.pcj_model.specs.Line.{line_of, printed};
ghost use Rattle.pcj_model.specs.Reply.{Language};
ghost use Rattle.pcj_model.specs.State.{State};
ghost use Rattle.pcj_script.specs.Lines.{lines_given};
ghost use Rattle.pcj_model.specs.declared.ending.Ending.TheVariants as endings;
ghost use Rattle.pcj_session.specs.Language.{IsSparql};
ghost use Rattle.pcj_replay.specs.declared.input.InputEnd.TheVariants as input_ends;
ghost use Rattle.pcj_replay.specs.declared.stop.Stop.TheVariants as stops;
ghost use Rattle.pcj_replay.specs.Input.{is_ended, lines_up_to, stop_of};
ghost use Rattle.pcj_replay.specs.Runs.{Begins, Closes, EndsBehind, Finishes, HoldsFirst, IsReadEnd, Ran, RunsTo, StopsIn, TellsSinkFault};
ghost use Rattle.pcj_replay.specs.Stop.{HasSinkCause};

use crate::answer::{answer, write_line};
use crate::input::{Input, InputEnd};
use crate::stop::Stop;
use pcj_io::Sink;
use pcj_model::{Ending, Line};
use pcj_script::{Front, ScriptError, ScriptKind, next_command};
use pcj_session::Session;
use pcj_table::RowTable;
use std::alloc::Global;

/// Carries out the commands of what was read of a script, one after another, and writes what each comes to before the next one
/// begins. Then the line that is refused, if one is, is named.
pub(crate) fn run<K: Sink, T: RowTable>(
    alloc: Global,
    session: Session,
    input: &Input,
    sink: &mut K,
    table: &mut T,
) -> Ending
    requires first { HoldsFirst session (T.rows table.old) }
    requires clock { IsClock session.oracle (T.rows table.old) }
    requires small { length input.now.bytes.items < 2 ^ 63 }
    ensures ends { (language : Language) (start : State) (commands : List Command) (script : ScriptEnding) → IsSparql language → Begins start (T.rows table.old) →
        Spells (stop_of input.now.end) 1 (lines_up_to input.now.end input.now.bytes.items) commands script → Ran language start commands script (K.taken sink.old) (K.taken sink.new) (T.rows table.new) result }
    ensures cause { TellsSinkFault (K.faults sink.old) (K.faults sink.new) result }
    ensures source { result ≡ endings.SourceFault → input.now.end ≡ input_ends.AtFault }
    ensures spent { result ≡ endings.Spent → stored_number (T.rows table.new) ≡ 2 ^ 48 }
    ensures table { result ≡ endings.TableFault → ⊥ }
{
    match carry_out(alloc, session, input, sink, table) {
        Ok(ending) => finish(alloc, ending, sink),
        Err(Stop::Spent) => close(alloc, Line::Spent, Ending::Spent, sink),
        Err(Stop::SinkFault) => Ending::SinkFault,
        Err(Stop::Memory) => Ending::OutOfMemory,
    }
}

/// Carries out the commands, and tells how what was read ends behind them.
fn carry_out<K: Sink, T: RowTable>(
    alloc: Global,
    mut session: Session,
    input: &Input,
    sink: &mut K,
    table: &mut T,
) -> Result<Ending, Stop>
    requires first { HoldsFirst session (T.rows table.old) }
    requires clock { IsClock session.oracle (T.rows table.old) }
    requires small { length input.now.bytes.items < 2 ^ 63 }
    ensures done { (language : Language) (start : State) (commands : List Command) (script : ScriptEnding) → IsSparql language → Begins start (T.rows table.old) →
        Spells (stop_of input.now.end) 1 (lines_up_to input.now.end input.now.bytes.items) commands script →
        IfOk result (RunsTo language start commands script (K.taken sink.old) (K.taken sink.new) (T.rows table.new)) }
    ensures cut { (language : Language) (start : State) (commands : List Command) (script : ScriptEnding) → IsSparql language → Begins start (T.rows table.old) →
        Spells (stop_of input.now.end) 1 (lines_up_to input.now.end input.now.bytes.items) commands script →
        IfErr result (StopsIn language start commands (K.taken sink.old) (K.taken sink.new) (T.rows table.new)) }
    ensures cause { HasSinkCause (K.faults sink.old) (K.faults sink.new) result }
    ensures spent { IsErrOf result stops.Spent → stored_number (T.rows table.new) ≡ 2 ^ 48 }
    ensures kind { IfOk result (IsReadEnd input.now.end) }
{
    let mut rest = input.bytes.as_slice();
    let mut line = 1;
    let end = input.end;
    loop {
        match next_command(rest, line, has_ended(end)) {
            Front::Got {
                command,
                used,
                lines,
            } => {
                answer(alloc, &mut session, command, sink, table)?;
                let (_, behind) = rest.split_at(used);
                rest = behind;
                line += lines;
            }
            Front::Skipped { used } => {
                let (_, behind) = rest.split_at(used);
                rest = behind;
                line += 1;
            }
            Front::Refused(error) => return Ok(Ending::Refused(error)),
            Front::End => return Ok(Ending::Ended),
            Front::More => return Ok(ending_behind(rest, line, end)),
        }
    }
}

/// Whether all of the script was read.
fn has_ended(end: InputEnd) -> bool
    ensures { result ≡ is_ended end }
{
    match end {
        InputEnd::AtEnd => true,
        InputEnd::AtLimit | InputEnd::AtFault => false,
    }
}

/// How what was read ends where no further command stands whole in it, the rest of which begins the line with the number.
fn ending_behind(rest: &[u8], line: u64, end: InputEnd) -> Ending
    requires going { is_ended end ≡ false }
    requires room { line + length rest.now < 2 ^ 64 }
    ensures ends { EndsBehind end line (length (lines_given false rest.now)) result }
    ensures kind { IsReadEnd end result }
{
    match end {
        InputEnd::AtEnd => unreachable!(),
        InputEnd::AtFault => Ending::SourceFault,
        InputEnd::AtLimit => Ending::Refused(ScriptError {
            line: line + whole_lines(rest) as u64,
            kind: ScriptKind::TooMuch,
        }),
    }
}

/// How many lines have their LF.
fn whole_lines(bytes: &[u8]) -> usize
    ensures value { result ≡ length (lines_given false bytes.now) }
    ensures few { result ≤ length bytes.now }
{
    let mut count = 0;
    for byte in bytes {
        count += usize::from(*byte == b'\n');
    }
    count
}

/// Names the line that is refused, if one is.
fn finish<K: Sink>(alloc: Global, ending: Ending, sink: &mut K) -> Ending
    ensures finishes { Finishes ending (K.taken sink.old) (K.taken sink.new) result }
    ensures cause { (result ≡ ending) ⊎ TellsSinkFault (K.faults sink.old) (K.faults sink.new) result }
{
    match ending {
        Ending::Refused(error) => close(alloc, Line::Script(error), ending, sink),
        _ => ending,
    }
}

/// Writes the last line of a run, which then ends so, or as the write does.
fn close<K: Sink>(alloc: Global, line: Line<'_>, ending: Ending, sink: &mut K) -> Ending
    ensures closes { Closes (printed (line_of line.entry ∷ [])) ending (K.taken sink.old) (K.taken sink.new) result }
    ensures cause { (result ≡ ending) ⊎ TellsSinkFault (K.faults sink.old) (K.faults sink.new) result }
{
    match write_line(alloc, line, sink) {
        Ok(()) => ending,
        Err(Stop::SinkFault) => Ending::SinkFault,
        Err(Stop::Memory | Stop::Spent) => Ending::OutOfMemory,
    }
}
