ghost use Rattle.std.specs.Prelude.{◌≡◌, Ok, Err, IfOk, IfErr};
ghost use Rattle.pcj_script.specs.Reading.{opened, IsTextless, line_opening, one_word, two_words, three_words};

use crate::command::Command;
use crate::error::ScriptKind;
use crate::place::{client_of, count_of, crashed_of, name_of};
use crate::words::Words;

/// How many bytes a command line may have.
const LINE_LIMIT: usize = 1024;

/// What a command line begins.
#[derive(Clone, Copy)]
pub(crate) enum Opening<'a> {
    /// A command that has no text.
    Whole(Command<'a>),
    /// A command whose text follows.
    Begun(Begun<'a>),
}

/// A command whose text isn't read yet.
#[derive(Clone, Copy)]
pub(crate) enum Begun<'a> {
    Load { client: u8 },
    Register { client: u8, name: &'a [u8] },
    Scan,
}

impl<'a> Begun<'a> {
    ghost use Rattle.pcj_script.specs.Commands.{command_of};
    ghost use Rattle.pcj_script.specs.Reading.{begun, with_text};

    /// The command with its text.
    pub(crate) fn with_text(self, text: &'a [u8]) -> Command<'a>
        ensures { command_of result ≡ with_text (begun self.entry) text.now }
    {
        match self {
            Begun::Load { client } => Command::Load {
                client,
                document: text,
            },
            Begun::Register { client, name } => Command::Register { client, name, text },
            Begun::Scan => Command::Scan { text },
        }
    }
}

/// What a command line begins, or the first thing that is wrong with it.
pub(crate) fn read_opening(line: &[u8]) -> Result<Opening<'_>, ScriptKind>
    ensures ok { IfOk result (λ opening. line_opening line.now ≡ Ok (opened opening)) }
    ensures err { IfErr result (λ kind. line_opening line.now ≡ Err kind) }
    ensures whole { IfOk result (λ opening. IsTextless opening) }
{
    if line.len() > LINE_LIMIT {
        return Err(ScriptKind::TooLong);
    }
    match Words::of(line) {
        Words::One(command) => one_word(command),
        Words::Two(command, word) => two_words(command, word),
        Words::Three(command, word, other) => three_words(command, word, other),
        Words::Zero | Words::More => Err(ScriptKind::UnknownCommand),
    }
}

fn one_word(command: &[u8]) -> Result<Opening<'_>, ScriptKind>
    ensures ok { IfOk result (λ opening. one_word command.now ≡ Ok (opened opening)) }
    ensures err { IfErr result (λ kind. one_word command.now ≡ Err kind) }
    ensures whole { IfOk result (λ opening. IsTextless opening) }
{
    if command == b"status".as_slice() {
        return Ok(Opening::Whole(Command::Status));
    }
    if command == b"scan".as_slice() {
        return Ok(Opening::Begun(Begun::Scan));
    }
    Err(ScriptKind::UnknownCommand)
}

fn two_words<'a>(command: &'a [u8], word: &'a [u8]) -> Result<Opening<'a>, ScriptKind>
    ensures ok { IfOk result (λ opening. two_words command.now word.now ≡ Ok (opened opening)) }
    ensures err { IfErr result (λ kind. two_words command.now word.now ≡ Err kind) }
    ensures whole { IfOk result (λ opening. IsTextless opening) }
{
    if command == b"load".as_slice() {
        let client = client_of(word).ok_or(ScriptKind::BadActor)?;
        return Ok(Opening::Begun(Begun::Load { client }));
    }
    if command == b"crash".as_slice() {
        let crashed = crashed_of(word).ok_or(ScriptKind::BadActor)?;
        return Ok(Opening::Whole(Command::Crash(crashed)));
    }
    if command == b"answers".as_slice() {
        let name = name_of(word).ok_or(ScriptKind::BadName)?;
        return Ok(Opening::Whole(Command::Answers(name)));
    }
    Err(ScriptKind::UnknownCommand)
}

fn three_words<'a>(
    command: &'a [u8],
    word: &'a [u8],
    other: &'a [u8],
) -> Result<Opening<'a>, ScriptKind>
    ensures ok { IfOk result (λ opening. three_words command.now word.now other.now ≡ Ok (opened opening)) }
    ensures err { IfErr result (λ kind. three_words command.now word.now other.now ≡ Err kind) }
    ensures whole { IfOk result (λ opening. IsTextless opening) }
{
    if command == b"register".as_slice() {
        let client = client_of(word).ok_or(ScriptKind::BadActor)?;
        let name = name_of(other).ok_or(ScriptKind::BadName)?;
        return Ok(Opening::Begun(Begun::Register { client, name }));
    }
    if command == b"step".as_slice() {
        let client = client_of(word).ok_or(ScriptKind::BadActor)?;
        let count = count_of(other).ok_or(ScriptKind::BadNumber)?;
        return Ok(Opening::Whole(Command::StepClient { client, count }));
    }
    Err(ScriptKind::UnknownCommand)
}
