ghost use Rattle.std.specs.Prelude.{◌≡◌, ◌∷◌, ◌<◌, ◌+◌, ◌^◌, length};
ghost use Rattle.pcj_script.specs.Lines.{Line, lines_given, written, said};
ghost use Rattle.pcj_script.specs.Front.{is_skipped, BeginsCommand};
ghost use Rattle.pcj_script.specs.Told.{StandsAtFront, IsTold, UsesSome};
ghost use Rattle.pcj_script.specs.Reading.{begun};

use crate::command::Command;
use crate::error::{ScriptError, ScriptKind};
use crate::line::first_line;
use crate::opening::{Begun, Opening, read_opening};
use crate::text::{TextEnd, read_text};

/// What stands at the front of a script's bytes.
#[derive(Clone, Copy)]
pub enum Front<'a> {
    /// A command, with how many bytes and lines of the script are its own.
    Got {
        command: Command<'a>,
        used: usize,
        lines: u64,
    },
    /// One line that says nothing, empty or a comment, of so many bytes.
    Skipped {
        used: usize,
    },
    /// Nothing that is whole: the bytes go on.
    More,
    /// A line that is refused.
    Refused(ScriptError),
    /// The end: there are no bytes, and none follow.
    End,
}

/// What stands at the front of a script's bytes, the first of which begin the line with the number.
///
/// Where they haven't `ended`, what stands behind the last LF isn't looked at. `More` comes where they haven't ended
/// and no line is whole, or the text of the command that stands at the front has no `end` in the whole lines.
pub fn next_command(text: &[u8], line: u64, ended: bool) -> Front<'_>
    requires { line + length text.now < 2 ^ 64 }
    ensures told { StandsAtFront ended line text.now result }
    ensures within { UsesSome (length text.now) result }
{
    let Some((first, rest)) = first_line(text, ended) else {
        return if ended { Front::End } else { Front::More };
    };
    if is_skipped(first.said()) {
        return Front::Skipped { used: first.len() };
    }
    match read_opening(first.said()) {
        Err(kind) => Front::Refused(ScriptError { line, kind }),
        Ok(Opening::Whole(command)) => Front::Got {
            command,
            used: first.len(),
            lines: 1,
        },
        Ok(Opening::Begun(begun)) => begun.front(first.len(), rest, line, ended),
    }
}

/// Whether a line says nothing: it is empty, or a comment.
fn is_skipped(line: &[u8]) -> bool
    ensures { result ≡ is_skipped line.now }
{
    match line {
        [] => true,
        [first, ..] => *first == b'#',
    }
}

impl<'a> Begun<'a> {
    /// What stands at the front where a first line of so many bytes begins the command, and `rest` follows.
    fn front(self, size: usize, rest: &'a [u8], line: u64, ended: bool) -> Front<'a>
        requires room { line + length rest.now + 1 < 2 ^ 64 }
        requires small { size + length rest.now < 2 ^ 63 }
        ensures within { 0 < size → UsesSome (size + length rest.now) result }
        ensures told { (first : Line) → size ≡ length (written first) → BeginsCommand (said first) (begun self.entry) →
            IsTold ended line (first ∷ lines_given ended rest.now) result }
    {
        match read_text(rest, ended) {
            TextEnd::Ended { text, used, lines } => Front::Got {
                command: self.with_text(text),
                used: size + used,
                lines: lines + 1,
            },
            TextEnd::TooLong { before } => Front::Refused(ScriptError {
                line: line + before + 1,
                kind: ScriptKind::TooLong,
            }),
            TextEnd::Open if ended => Front::Refused(ScriptError {
                line,
                kind: ScriptKind::MissingEnd,
            }),
            TextEnd::Open => Front::More,
        }
    }
}
