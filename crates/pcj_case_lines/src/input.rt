ghost use Rattle.std.specs.Prelude.{◌≡◌, ◌≤◌, IfOk};

use crate::answer::Answer;
use crate::unanswered::Unanswered;
use std::io;

/// The cases of a program.
pub trait Cases {
    /// Adds the answer of a case behind its line.
    fn answer(&self, out: &mut Answer, line: &str) -> Result<(), Unanswered>;
}

/// How many lines were read, and how many of them had no answer, or couldn't be written.
#[derive(Clone, Copy, PartialEq, Eq)]
pub struct Tally {
    pub lines: u64,
    pub unanswered: u64,
}

impl Tally {
    /// One more line. No count goes on past the last number.
    fn with_line(self, is_answered: bool) -> Tally
        requires { self.unanswered ≤ self.lines }
        ensures { result.unanswered ≤ result.lines }
    {
        let lines = self.lines.saturating_add(1);
        let unanswered = if is_answered {
            self.unanswered
        } else {
            self.unanswered.saturating_add(1)
        };
        Tally { lines, unanswered }
    }
}

/// Adds the answer of a line, or a question mark where it is no case. Whether it was one, or no line to be answered.
fn answer_line<C: Cases>(cases: &C, out: &mut Answer, line: &str) -> Result<bool, Unanswered> {
    if line.is_empty() || line.starts_with('#') {
        return Ok(true);
    }
    out.word("=")?;
    match cases.answer(out, line) {
        Ok(()) => Ok(true),
        Err(Unanswered::Memory) => Err(Unanswered::Memory),
        Err(Unanswered::NoCase) => {
            out.word("?")?;
            Ok(false)
        }
    }
}

/// Writes a line with its answer. Whether it was a case, or no line to be answered; and `false` where it was not written.
fn write_line<C: Cases>(
    rt: &(impl Print + AllocGlobal),
    separator: u8,
    cases: &C,
    line: &str,
) -> bool {
    let Ok(mut out) = Answer::of(rt.alloc(), separator, line) else {
        return false;
    };
    let is_case = answer_line(cases, &mut out, line) == Ok(true);
    out.go_on(b"\n").is_ok() && rt.write_all(out.as_slice()).is_ok() && is_case
}

/// Answers every line of standard input on standard output, with this byte before each field of an answer. An error comes
/// where a line can't be read; then nothing more is read.
pub fn answer_lines<C: Cases>(
    rt: &(impl Input + Print + AllocGlobal),
    separator: u8,
    cases: &C,
) -> io::Result<Tally>
    ensures { IfOk result (λ tally. tally.unanswered ≤ tally.lines) }
{
    let mut tally = Tally {
        lines: 0,
        unanswered: 0,
    };
    for line in rt.lines(rt.alloc()) {
        let line = line?;
        tally = tally.with_line(write_line(rt, separator, cases, line.as_str()));
    }
    Ok(tally)
}
