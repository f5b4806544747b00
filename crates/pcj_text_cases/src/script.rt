use pcj_case_lines::{Answer, Unanswered, size, word};
use pcj_script::{Command, Crashed, Front, ScriptError, next_command, script_number};
use pcj_term::{Bytes, TryClone};
use std::alloc::Global;

/// `script TEXT`: the commands of a whole script, and then `end`, or `refused LINE KIND`.
pub(crate) fn script_case(out: &mut Answer, arguments: &[Bytes]) -> Result<(), Unanswered> {
    match arguments {
        [text] => script(out, text.as_slice()),
        _ => Err(Unanswered::NoCase),
    }
}

fn script(out: &mut Answer, text: &[u8]) -> Result<(), Unanswered> {
    let mut at = 0;
    let mut line: u64 = 1;
    loop {
        let (_, rest) = text.split_at(at);
        match next_command(rest, line, true) {
            Front::Got {
                command: found,
                used,
                lines,
            } => {
                command(out, found)?;
                at += used;
                line += lines;
            }
            Front::Skipped { used } => {
                at += used;
                line += 1;
            }
            Front::Refused(error) => return refused(out, error),
            Front::More | Front::End => return out.word("end"),
        }
    }
}

/// `next_command LINE ENDED TEXT`, where ENDED is `ended` or `open`: `got USED LINES` and the command, `skipped USED`,
/// `more`, `refused LINE KIND`, or `end`.
pub(crate) fn next_case(out: &mut Answer, arguments: &[Bytes]) -> Result<(), Unanswered> {
    let [line, ended, text] = arguments else {
        return Err(Unanswered::NoCase);
    };
    let found = front(text, size(line)?, ended)?;
    show(out, found)?;
    match found {
        Front::Got { command: found, .. } => command(out, found),
        _ => Ok(()),
    }
}

/// `next_long ENDED BEFORE PART COUNT AFTER`: the same of a text of many equal parts between two others, its first line
/// with the number 1, and without the command.
pub(crate) fn long_case(
    alloc: Global,
    out: &mut Answer,
    arguments: &[Bytes],
) -> Result<(), Unanswered> {
    let [ended, before, part, count, after] = arguments else {
        return Err(Unanswered::NoCase);
    };
    let mut text = before.try_clone(alloc)?;
    for _ in 0..size(count)? {
        text.extend_from_slice(part.as_slice())?;
    }
    text.extend_from_slice(after.as_slice())?;
    show(out, front(&text, 1, ended)?)
}

/// What stands at the front, for a number that a script's line may have.
fn front<'a>(text: &'a Bytes, line: usize, ended: &Bytes) -> Result<Front<'a>, Unanswered> {
    let line = u64::from(u32::try_from(line).ok().ok_or(Unanswered::NoCase)?);
    match word(ended) {
        "ended" => Ok(next_command(text.as_slice(), line, true)),
        "open" => Ok(next_command(text.as_slice(), line, false)),
        _ => Err(Unanswered::NoCase),
    }
}

fn show(out: &mut Answer, front: Front<'_>) -> Result<(), Unanswered> {
    match front {
        Front::Got { used, lines, .. } => {
            out.word("got")?;
            out.number(used as u64)?;
            out.number(lines)
        }
        Front::Skipped { used } => {
            out.word("skipped")?;
            out.number(used as u64)
        }
        Front::More => out.word("more"),
        Front::Refused(error) => refused(out, error),
        Front::End => out.word("end"),
    }
}

fn refused(out: &mut Answer, error: ScriptError) -> Result<(), Unanswered> {
    out.word("refused")?;
    out.number(error.line)?;
    out.number(u64::from(script_number(error.kind)))
}

fn command(out: &mut Answer, command: Command<'_>) -> Result<(), Unanswered> {
    match command {
        Command::Load { client, document } => {
            numbered(out, "load", client)?;
            out.bytes(document)
        }
        Command::Register { client, name, text } => {
            numbered(out, "register", client)?;
            out.bytes(name)?;
            out.bytes(text)
        }
        Command::StepClient { client, count } => {
            numbered(out, "step", client)?;
            out.number(u64::from(count))
        }
        Command::Crash(crashed) => crash(out, crashed),
        Command::Status => out.word("status"),
        Command::Answers(name) => {
            out.word("answers")?;
            out.bytes(name)
        }
        Command::Scan { text } => {
            out.word("scan")?;
            out.bytes(text)
        }
    }
}

fn crash(out: &mut Answer, crashed: Crashed) -> Result<(), Unanswered> {
    match crashed {
        Crashed::Client(client) => numbered(out, "crash", client),
        Crashed::All => out.word("crash\tall"),
        Crashed::Oracle => out.word("crash\toracle"),
    }
}

fn numbered(out: &mut Answer, word: &str, client: u8) -> Result<(), Unanswered> {
    out.word(word)?;
    out.number(u64::from(client))
}
