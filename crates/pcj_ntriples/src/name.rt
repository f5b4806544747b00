ghost use Rattle.std.specs.Prelude.{◌≡◌, ◌∷◌, ℕ, true, false, IfOk, IfErr, IfSome, IfNone, Ok, Err};
ghost use Rattle.pcj_term.specs.Label.{is_label_character};
ghost use Rattle.pcj_ntriples.specs.declared.fault.Fault.TheVariants.{Memory};
ghost use Rattle.pcj_ntriples.specs.LineReading.{label_at, tag_at, is_tag_character, begins_tag_character, begins_label_character};
ghost use Rattle.pcj_ntriples.specs.Fault.{IsFault};

use crate::fault::Fault;
use crate::kind::NtKind;
use crate::reader::LineReader;
use pcj_term::{Bytes, is_label_character};
use std::alloc::Global;

impl<'a> LineReader<'a> {
    /// Takes the label characters at the front, less the dots at their end (RDF 1.1 N-Triples,
    /// `BLANK_NODE_LABEL`). Gives them in UTF-8.
    pub(crate) fn label(&mut self, alloc: Global) -> Result<Bytes, Fault>
        ensures label { IfOk result (λ label. label_at self.old ≡ (label, self.new)) }
        ensures fault { IfErr result (λ fault. fault ≡ Memory) }
    {
        let mut label = String::new(alloc);
        let mut kept = 0;
        let mut after = self.fork();
        while let Some(character) = self.label_character() {
            label.push(character)?;
            if character != '.' {
                kept = label.len();
                after = self.fork();
            }
        }
        *self = after;
        let mut label = label.into_bytes();
        label.truncate(kept);
        Ok(Bytes::from_vec(label))
    }

    /// Takes a label character, where one stands at the front.
    fn label_character(&mut self) -> Option<char>
        ensures some { IfSome result (λ c. (self.old ≡ c ∷ self.new) × (is_label_character c ≡ true)) }
        ensures none { IfNone result ((self.new ≡ self.old) × (begins_label_character self.old ≡ false)) }
    {
        match self.peek() {
            Some(character) if is_label_character(character) => self.next(),
            _ => None,
        }
    }

    /// Takes a language tag after its `@`, and gives it in lower case (RDF 1.1 N-Triples, `LANGTAG`).
    pub(crate) fn tag(&mut self, alloc: Global) -> Result<Bytes, Fault>
        ensures tag { IfOk result (λ tag. tag_at self.old ≡ Ok (tag, self.new)) }
        ensures fault { IfErr result (λ fault. IsFault fault (tag_at self.old)) }
    {
        let mut tag = String::new(alloc);
        let mut digits = false;
        let mut some = false;
        while let Some(character) = self.tag_character(digits, some) {
            tag.push(character.to_ascii_lowercase())?;
            digits = digits || character == '-';
            some = character != '-';
        }
        if some {
            Ok(Bytes::from_vec(tag.into_bytes()))
        } else {
            Err(Fault::Wrong(NtKind::BadTag))
        }
    }

    /// Takes a character that a tag goes on with, where one stands at the front: a letter, a digit past the first
    /// subtag, or a hyphen after a character of its subtag.
    fn tag_character(&mut self, digits: bool, some: bool) -> Option<char>
        ensures some { IfSome result (λ c. (self.old ≡ c ∷ self.new) × (is_tag_character digits some c ≡ true)) }
        ensures none { IfNone result ((self.new ≡ self.old) × (begins_tag_character digits some self.old ≡ false)) }
    {
        match self.peek() {
            Some(character) if is_tag_character(digits, some, character) => self.next(),
            _ => None,
        }
    }
}

fn is_tag_character(digits: bool, some: bool, character: char) -> bool
    ensures { result ≡ is_tag_character digits some character }
{
    matches!(character, 'A'..='Z' | 'a'..='z')
        || (digits && matches!(character, '0'..='9'))
        || (character == '-' && some)
}
