ghost use Rattle.std.specs.Prelude.{◌≡◌, ◌≤◌, ◌^◌, ◌∷◌, ◌↔◌, [], List, map, IfOk, IsErrOf, IsTrue};
ghost use Rattle.std.specs.String.{string_bytes};
ghost use Rattle.pcj_term.specs.declared.triple.Triple.{Triple};
ghost use Rattle.pcj_io.specs.Faults.{Rose};
ghost use Rattle.pcj_table.specs.Table.{row_at};
ghost use Rattle.pcj_table.specs.declared.error.TableError.TheVariants as table_errors;
ghost use Rattle.pcj_oracle.specs.Clock.{IsClock, stored_number};
ghost use Rattle.pcj_rows.specs.Triples.{HasTriples};
ghost use Rattle.pcj_model.specs.Ending.{status_of};
ghost use Rattle.pcj_model.specs.Queries.{Registration};
ghost use Rattle.pcj_model.specs.Reply.{Language};
ghost use Rattle.pcj_model.specs.declared.ending.Ending.TheVariants as endings;
ghost use Rattle.pcj_jobs.specs.Agrees.{HasRegistered};
ghost use Rattle.pcj_session.specs.Language.{IsSparql};
ghost use Rattle.pcj_replay.specs.Entry.{IsOpen};
ghost use Rattle.pcj_replay.specs.Runs.{HoldsFirst, Replays};
ghost use Rattle.pcj_replay.specs.Usage.{IsReplay, ShowsUsage};

use crate::input::Input;
use crate::run::run;
use pcj_io::{Sink, SinkError, Source, write_all};
use pcj_lines::push_usage;
use pcj_model::Ending;
use pcj_pending::pending;
use pcj_registrations::registrations;
use pcj_session::{Session, sparql_is_a_language};
use pcj_table::{RowTable, TableError};
use pcj_term::{Bytes, Memory};
use std::alloc::Global;

/// Carries out the script that the source gives, for the word `replay`, over the table, and writes its transcript.
/// Other words write the usage line, and nothing is read.
///
/// The table is an empty one, or one that an earlier call has left, wherever that was stopped: locks that stand there are those
/// of loads and registrations that crashed, and its registered queries are answered. Each load is a transaction over it, whose steps go on beside those of all others (Percolator, OSDI
/// 2010, section 2.2).
///
/// The result is the program's exit status: 0 at the script's end, 2 where a line of the script or the words are refused, 3 for a
/// fault of the source, 4 for one of the sink, 5 where memory ran out, 6 where the timestamp 2^48 would be drawn, and 7 where the
/// table can't be looked at before the first command. A fault of the table within a command is told in the transcript.
pub fn replay<S: Source, K: Sink, T: RowTable>(
    alloc: Global,
    words: &[String],
    source: &mut S,
    sink: &mut K,
    table: &mut T,
) -> u8
    requires { IsOpen (T.rows table.old) }

    // The transcript of a run of the script's commands, as far as the status tells, and the triples and queries that it leaves.
    ensures replays { IsReplay (map string_bytes words.now) → (language : Language) (triples : List Triple) (queries : List Registration) → IsSparql language → HasTriples (row_at (T.rows table.old)) triples →
        HasRegistered (row_at (T.rows table.old)) queries → Replays (S.left source.old) (K.taken sink.old) (K.taken sink.new) (T.rows table.old) (T.rows table.new) language triples queries result }

    // Another call may follow, whatever the words and the status.
    ensures ready { IsOpen (T.rows table.new) }

    // The usage line, or a part of it.
    ensures usage { (IsReplay (map string_bytes words.now) → ⊥) → ShowsUsage (K.taken sink.old) (K.taken sink.new) result }
    ensures usage_touches_nothing { (IsReplay (map string_bytes words.now) → ⊥) → (source.new ≡ source.old) × (table.new ≡ table.old) }

    // The causes of the statuses.
    ensures source_fault { result ≡ 3 → Rose (S.faults source.old) (S.faults source.new) }
    ensures sink_fault { result ≡ 4 → Rose (K.faults sink.old) (K.faults sink.new) }
    ensures spent { result ≡ 6 → stored_number (T.rows table.new) ≡ 2 ^ 48 }
    ensures table_fault { result ≡ 7 → Rose (T.failures table.old) (T.failures table.new) }
    ensures table_fault_at_entry { result ≡ 7 → (source.new ≡ source.old) × (sink.new ≡ sink.old) × (T.rows table.new ≡ T.rows table.old) }
{
    if is_replay(words) {
        replay_script(alloc, source, sink, table).status()
    } else {
        show_usage(alloc, sink)
    }
}

/// Whether the words of the command line, without the program's name, are those that `replay` carries out.
pub fn is_replay(words: &[String]) -> bool
    ensures { IsTrue result ↔ IsReplay (map string_bytes words.now) }
{
    match words {
        [word] => word.as_str() == "replay",
        _ => false,
    }
}

/// Looks at the table, reads the script, and carries it out.
fn replay_script<S: Source, K: Sink, T: RowTable>(
    alloc: Global,
    source: &mut S,
    sink: &mut K,
    table: &mut T,
) -> Ending
    requires { IsOpen (T.rows table.old) }
    ensures replays { (language : Language) (triples : List Triple) (queries : List Registration) → IsSparql language → HasTriples (row_at (T.rows table.old)) triples → HasRegistered (row_at (T.rows table.old)) queries →
        Replays (S.left source.old) (K.taken sink.old) (K.taken sink.new) (T.rows table.old) (T.rows table.new) language triples queries (status_of result) }
    ensures source_fault { result ≡ endings.SourceFault → Rose (S.faults source.old) (S.faults source.new) }
    ensures sink_fault { result ≡ endings.SinkFault → Rose (K.faults sink.old) (K.faults sink.new) }
    ensures ready { IsOpen (T.rows table.new) }
    ensures spent { result ≡ endings.Spent → stored_number (T.rows table.new) ≡ 2 ^ 48 }
    ensures table_fault { result ≡ endings.TableFault → Rose (T.failures table.old) (T.failures table.new) }
    ensures table_fault_at_entry { result ≡ endings.TableFault → (source.new ≡ source.old) × (sink.new ≡ sink.old) × (T.rows table.new ≡ T.rows table.old) }
{
    sparql_is_a_language();
    let session = match open_session(alloc, table) {
        Ok(session) => session,
        Err(TableError::Failed) => return Ending::TableFault,
        Err(TableError::Memory) => return Ending::OutOfMemory,
    };
    match Input::read(alloc, source) {
        Ok(input) => run(alloc, session, &input, sink, table),
        Err(Memory) => Ending::OutOfMemory,
    }
}

/// Looks at the table, and gives the session that knows its registered queries.
fn open_session<T: RowTable>(alloc: Global, table: &mut T) -> Result<Session, TableError>
    requires { IsOpen (T.rows table.old) }
    ensures first { IfOk result (λ session. HoldsFirst session (T.rows table.old)) }
    ensures clock { IfOk result (λ session. IsClock session.oracle (T.rows table.old)) }
    ensures same { T.rows table.new ≡ T.rows table.old }
    ensures fault { IsErrOf result table_errors.Failed → Rose (T.failures table.old) (T.failures table.new) }
{
    pending(alloc, table)?;
    let registrations = registrations(alloc, table)?;
    Ok(Session::new(alloc, registrations.as_slice())?)
}

/// Writes the usage line, and gives the status.
fn show_usage<K: Sink>(alloc: Global, sink: &mut K) -> u8
    ensures shows { ShowsUsage (K.taken sink.old) (K.taken sink.new) result }
    ensures fault { result ≡ 4 → Rose (K.faults sink.old) (K.faults sink.new) }
    ensures source { result ≡ 3 → ⊥ }
    ensures spent { result ≡ 6 → ⊥ }
    ensures table { result ≡ 7 → ⊥ }
{
    let mut text = Bytes::new(alloc);
    if push_usage(&mut text).is_err() {
        return Ending::OutOfMemory.status();
    }
    match write_all(sink, text.as_slice()) {
        Ok(()) => 2,
        Err(SinkError::Failed) => Ending::SinkFault.status(),
        Err(SinkError::Memory) => Ending::OutOfMemory.status(),
    }
}
