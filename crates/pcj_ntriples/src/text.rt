ghost use Rattle.std.specs.Prelude.{◌≡◌, ℕ, IfOk, IfErr, Ok, Err, Some, None, IfSome, IfNone};
ghost use Rattle.std.specs.Option.{option_map};
ghost use Rattle.pcj_ntriples.specs.Text.{digits_after};
ghost use Rattle.pcj_ntriples.specs.TextReading.{digits_at, scalar_at, escape_at, character_at};
ghost use Rattle.pcj_ntriples.specs.LineReading.{text_at};
ghost use Rattle.pcj_ntriples.specs.Fault.{IsFault};

use crate::enclosure::Enclosure;
use crate::fault::Fault;
use crate::kind::NtKind;
use crate::reader::LineReader;
use pcj_term::Bytes;
use std::alloc::Global;

/// The greatest number of a character.
const LAST_CHARACTER: u32 = 0x10_FFFF;

impl<'a> LineReader<'a> {
    /// Takes a text up to the mark at its end, and the mark (RDF 1.1 N-Triples, `IRIREF` and
    /// `STRING_LITERAL_QUOTE`). The mark before it has been taken. Gives the text in UTF-8, without escapes.
    pub(crate) fn text(&mut self, alloc: Global, enclosure: Enclosure) -> Result<Bytes, Fault>
        ensures text { IfOk result (λ text. text_at enclosure self.old ≡ Ok (text, self.new)) }
        ensures fault { IfErr result (λ fault. IsFault fault (text_at enclosure self.old)) }
    {
        let mut text = String::new(alloc);
        while let Some(character) = self.character(enclosure)? {
            text.push(character)?;
        }
        Ok(Bytes::from_vec(text.into_bytes()))
    }

    /// Takes the next character of a text, raw or by its escape, or the mark at the end.
    fn character(&mut self, enclosure: Enclosure) -> Result<Option<char>, Fault>
        ensures character { IfOk result (λ character. character_at enclosure self.old ≡ Ok (character, self.new)) }
        ensures fault { IfErr result (λ fault. IsFault fault (character_at enclosure self.old)) }
    {
        let Some(first) = self.next() else {
            return Err(Fault::Wrong(enclosure.unclosed()));
        };
        if first == enclosure.closing() {
            return Ok(None);
        }
        let character = if first == '\\' {
            match self.escape(enclosure) {
                Some(character) => character,
                None => return Err(Fault::Wrong(NtKind::BadEscape)),
            }
        } else {
            first
        };
        if enclosure.allows(character) {
            Ok(Some(character))
        } else {
            Err(Fault::Wrong(NtKind::IriChar))
        }
    }

    /// Takes an escape after its backslash (RDF 1.1 N-Triples, `UCHAR` and `ECHAR`). Where there is none, what
    /// has been taken isn't said.
    #[tactic(auto, unfolding(crate::specs::TextReading::escape_at))]
    fn escape(&mut self, enclosure: Enclosure) -> Option<char>
        ensures { option_map (λ c. (c, self.new)) result ≡ escape_at enclosure self.old }
    {
        let letter = self.next()?;
        match digits_after(letter) {
            Some(digits) => self.numbered(digits),
            None => enclosure.short_escape(letter),
        }
    }

    /// Takes as many hexadecimal digits, and gives the character of their number.
    fn numbered(&mut self, digits: u8) -> Option<char>
        ensures { option_map (λ c. (c, self.new)) result ≡ scalar_at (digits_at digits 0 self.old) }
    {
        char::from_u32(self.number(digits)?)
    }

    /// Takes as many hexadecimal digits, and gives their number where it is not above that of the last character.
    fn number(&mut self, digits: u8) -> Option<u32>
        ensures { option_map (λ n. (n, self.new)) result ≡ digits_at digits 0 self.old }
    {
        let mut number = 0;
        for _ in 0..digits {
            number = number * 16 + self.next()?.to_digit(16)?;
            if number > LAST_CHARACTER {
                return None;
            }
        }
        Some(number)
    }
}

/// How many hexadecimal digits follow the letter of an escape by number.
fn digits_after(letter: char) -> Option<u8>
    ensures { result ≡ digits_after letter }
{
    match letter {
        'u' => Some(4),
        'U' => Some(8),
        _ => None,
    }
}
