ghost use Rattle.std.specs.Prelude.{◌≡◌, ◌^◌, [], ◌∷◌, IfErr, IsErrOf, OnOk, OnErr};
ghost use Rattle.pcj_io.specs.Sink.{Appends, AppendsPrefix};
ghost use Rattle.pcj_oracle.specs.Clock.{IsClock, stored_number};
ghost use Rattle.pcj_script.specs.Commands.{command_of};
ghost use Rattle.pcj_model.specs.Laws.{AsksSteps};
ghost use Rattle.pcj_model.specs.Line.{line_of, printed};
ghost use Rattle.pcj_model.specs.Reply.{Language};
ghost use Rattle.pcj_model.specs.State.{State};
ghost use Rattle.pcj_session.specs.Language.{IsSparql};
ghost use Rattle.pcj_session.specs.Session.{Holds};
ghost use Rattle.pcj_replay.specs.declared.stop.Stop.TheVariants as stops;
ghost use Rattle.pcj_replay.specs.Answer.{IsOfSink, StopsAnswer, WritesAnswer};
ghost use Rattle.pcj_replay.specs.Stop.{HasSinkCause};

use crate::stop::Stop;
use pcj_io::{Sink, write_all};
use pcj_model::{Line, push_line};
use pcj_script::Command;
use pcj_session::Session;
use pcj_table::RowTable;
use pcj_term::Bytes;
use std::alloc::Global;

/// Carries out a command, and writes what it came to.
pub(crate) fn answer<K: Sink, T: RowTable>(
    alloc: Global,
    session: &mut Session,
    command: Command<'_>,
    sink: &mut K,
    table: &mut T,
) -> Result<(), Stop>
    requires clock { IsClock session.old.oracle (T.rows table.old) }
    requires asks { AsksSteps (command_of command) }
    ensures answered { (language : Language) (state : State) → IsSparql language → Holds [] session.old (T.rows table.old) state →
        OnOk result (WritesAnswer language state (command_of command.entry) session.new (T.rows table.new) (K.taken sink.old) (K.taken sink.new)) }
    ensures stopped { (language : Language) (state : State) → IsSparql language → Holds [] session.old (T.rows table.old) state →
        IfErr result (StopsAnswer language state (command_of command.entry) (T.rows table.new) (K.taken sink.old) (K.taken sink.new)) }
    ensures clock { IsClock session.new.oracle (T.rows table.new) }
    ensures spent { IsErrOf result stops.Spent → stored_number (T.rows table.new) ≡ 2 ^ 48 }
    ensures cause { HasSinkCause (K.faults sink.old) (K.faults sink.new) result }
{
    let reply = session.answer(alloc, table, command)?;
    let text = reply.print(alloc)?;
    write_all(sink, text.as_slice())?;
    Ok(())
}

/// Writes a line.
pub(crate) fn write_line<K: Sink>(alloc: Global, line: Line<'_>, sink: &mut K) -> Result<(), Stop>
    ensures ok { OnOk result (Appends (K.taken sink.old) (K.taken sink.new) (printed (line_of line.entry ∷ []))) }
    ensures err { OnErr result (AppendsPrefix (K.taken sink.old) (K.taken sink.new) (printed (line_of line.entry ∷ []))) }
    ensures fault { IfErr result IsOfSink }
    ensures cause { HasSinkCause (K.faults sink.old) (K.faults sink.new) result }
{
    let mut text = Bytes::new(alloc);
    push_line(alloc, &mut text, line)?;
    write_all(sink, text.as_slice())?;
    Ok(())
}
