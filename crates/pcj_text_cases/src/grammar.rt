ghost use Rattle.std.specs.Bool.{OnTrue};
ghost use Rattle.std.specs.Str.{IsUtf8};

use pcj_case_lines::{Answer, Unanswered};
use pcj_grammar::{Fault, FaultKind, Refusal, read_grammar};
use pcj_term::{Bytes, is_utf8};
use std::alloc::Global;

/// `read_grammar TEXT`: `tokens` and how many the text has, or `fault` with its place and kind.
pub(crate) fn read_case(
    alloc: Global,
    out: &mut Answer,
    arguments: &[Bytes],
) -> Result<(), Unanswered> {
    let [text] = arguments else {
        return Err(Unanswered::NoCase);
    };
    let text = text.as_slice();
    if !is_text(text) {
        return Err(Unanswered::NoCase);
    }
    match read_grammar(alloc, text) {
        Ok(lexemes) => {
            out.word("tokens")?;
            out.number(lexemes.len() as u64)
        }
        Err(Refusal::Refused(fault)) => show_fault(out, fault),
        Err(Refusal::Memory) => Err(Unanswered::Memory),
    }
}

fn is_text(text: &[u8]) -> bool
    ensures { OnTrue result (IsUtf8 text.now) }
{
    is_utf8(text)
}

fn show_fault(out: &mut Answer, fault: Fault) -> Result<(), Unanswered> {
    out.word("fault")?;
    out.number(fault.at as u64)?;
    out.word(match fault.kind {
        FaultKind::Syntax => "syntax",
        FaultKind::OutOfProfile => "out_of_profile",
        FaultKind::TooDeep => "too_deep",
    })
}
