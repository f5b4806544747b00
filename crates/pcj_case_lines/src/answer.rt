ghost use Rattle.std.specs.Prelude.{◌≡◌, [], ◌++◌, codes, if◌then◌else◌, IfOk, OnOk, OnErr};
ghost use Rattle.std.specs.Fmt.{decimal};
ghost use Rattle.std.specs.List.{flat_map};
ghost use Rattle.pcj_term.specs.Term.{printed};
ghost use Rattle.pcj_case_lines.specs.Line.{behind, with_field, escaped_byte, field_of};

use crate::escape::escaped;
use crate::unanswered::Unanswered;
use pcj_term::{Bytes, Term, Triple, print_term};
use std::alloc::Global;

/// A line of the output, as it is put together: the case, and behind it the fields of the answer.
#[derive(Drop)]
pub struct Answer {
    /// What the line is made with.
    pub alloc: Global,
    /// The byte before each field.
    separator: u8,
    text: Bytes,
}

impl Answer {
    /// The case alone, for an answer with this byte before each field.
    pub fn of(alloc: Global, separator: u8, case: &str) -> Result<Answer, Unanswered>
        ensures text { IfOk result (λ answer. answer.text ≡ case.now) }
        ensures separator { IfOk result (λ answer. answer.separator ≡ separator) }
    {
        let text = Bytes::from_slice(alloc, case.as_bytes())?;
        Ok(Answer {
            alloc,
            separator,
            text,
        })
    }

    /// The line as it stands.
    pub fn as_slice(&self) -> &[u8]
        ensures { result.now ≡ self.now.text }
    {
        self.text.as_slice()
    }

    /// Adds a field of two parts, all or nothing.
    fn parts(&mut self, first: &[u8], second: &[u8]) -> Result<(), Unanswered>
        ensures ok { OnOk result (self.new ≡ with_field self.old (first.now ++ second.now)) }
        ensures err { OnErr result (self.new ≡ self.old) }
    {
        self.text
            .extend_from_pieces(&[&[self.separator], first, second])?;
        Ok(())
    }

    /// Adds a field that is a word. After an error the line is as it was, here and below.
    pub fn word(&mut self, word: &str) -> Result<(), Unanswered>
        ensures ok { OnOk result (self.new ≡ with_field self.old word.now) }
        ensures err { OnErr result (self.new ≡ self.old) }
    {
        self.parts(&[], word.as_bytes())
    }

    /// Goes on with the last field: bytes as they are.
    pub fn go_on(&mut self, bytes: &[u8]) -> Result<(), Unanswered>
        ensures ok { OnOk result (self.new ≡ behind self.old bytes.now) }
        ensures err { OnErr result (self.new ≡ self.old) }
    {
        self.text.extend_from_slice(bytes)?;
        Ok(())
    }

    /// Adds a field that is `true` or `false`.
    pub fn flag(&mut self, flag: bool) -> Result<(), Unanswered>
        ensures ok { OnOk result (self.new ≡ with_field self.old (if flag then codes "true" else codes "false")) }
        ensures err { OnErr result (self.new ≡ self.old) }
    {
        if flag {
            self.word("true")
        } else {
            self.word("false")
        }
    }

    /// Adds a field that is a number.
    pub fn number(&mut self, number: u64) -> Result<(), Unanswered>
        ensures ok { OnOk result (self.new ≡ with_field self.old (decimal number)) }
        ensures err { OnErr result (self.new ≡ self.old) }
    {
        let text = format!(in self.alloc; "{number}")?;
        self.word(text.as_str())
    }

    /// Adds a field that is bytes, with their escapes.
    pub fn bytes(&mut self, bytes: &[u8]) -> Result<(), Unanswered>
        ensures ok { OnOk result (self.new ≡ with_field self.old (field_of bytes.now)) }
        ensures err { OnErr result (self.new ≡ self.old) }
    {
        match bytes {
            [] => self.word("\\e"),
            _ => self.marked("", bytes),
        }
    }

    /// Adds a field that is a mark, and bytes with their escapes, none or more.
    pub fn marked(&mut self, mark: &str, bytes: &[u8]) -> Result<(), Unanswered>
        ensures ok { OnOk result (self.new ≡ with_field self.old (mark.now ++ flat_map escaped_byte bytes.now)) }
        ensures err { OnErr result (self.new ≡ self.old) }
    {
        let text = escaped(self.alloc, bytes)?;
        self.parts(mark.as_bytes(), text.as_slice())
    }

    /// Adds a field that is the printed form of a term.
    pub fn term(&mut self, term: &Term) -> Result<(), Unanswered>
        ensures ok { OnOk result (self.new ≡ with_field self.old (field_of (printed term.now))) }
        ensures err { OnErr result (self.new ≡ self.old) }
    {
        let text = print_term(self.alloc, term)?;
        self.bytes(text.as_slice())
    }

    /// Adds three fields, the printed forms of a triple's terms. After an error the first ones may stand.
    pub fn triple(&mut self, triple: &Triple) -> Result<(), Unanswered>
        ensures { OnOk result (self.new ≡ with_field (with_field (with_field self.old
            (field_of (printed triple.now.subject)))
            (field_of (printed triple.now.predicate)))
            (field_of (printed triple.now.object))) }
    {
        self.term(&triple.subject)?;
        self.term(&triple.predicate)?;
        self.term(&triple.object)
    }
}
