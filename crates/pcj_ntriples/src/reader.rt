ghost use Rattle.std.specs.Prelude.{◌≡◌, ◌∷◌, [], length, chars, slice_get, encode_utf8_all, IfSome, IfNone, drop, if◌then◌else◌};
ghost use Rattle.pcj_term.specs.Reading.{begins_with};
ghost use Rattle.pcj_term.specs.Label.{begins_label};
ghost use Rattle.pcj_ntriples.specs.Term.{begins_blank, begins_node, begins_datatype};
ghost use Rattle.pcj_ntriples.specs.LineReading.{skip_blanks};

use pcj_term::is_label_start;
use std::marker::Model;

/// What is left of a line, character by character.
#[derive(Drop)]
pub(crate) struct LineReader<'a> {
    rest: &'a str,
}

impl<'a> Model for LineReader<'a> {
    ghost use Rattle.std.specs.Prelude.{List, ℕ, chars};
    ghost use Rattle.std.specs.Str.{IsUtf8};

    ghost Value = { List ℕ };

    ghost view = { λ r. chars r.rest.now };

    ghost invariant = { λ r. IsUtf8 r.rest.now };
}

impl<'a> LineReader<'a> {
    /// The whole line.
    pub(crate) fn new(line: &'a str) -> LineReader<'a>
        ensures { result ≡ chars line.now }
    {
        LineReader { rest: line }
    }

    /// A reader at the same place.
    pub(crate) fn fork(&self) -> LineReader<'a>
        ensures { result ≡ self.now }
    {
        LineReader { rest: self.rest }
    }

    /// How many bytes are left.
    pub(crate) fn len(&self) -> usize
        ensures { result ≡ length (encode_utf8_all self.now) }
    {
        self.rest.len()
    }

    /// The character at the front, which stays there.
    pub(crate) fn peek(&self) -> Option<char>
        ensures { result ≡ slice_get self.now 0 }
    {
        self.rest.chars().next()
    }

    /// Takes the character at the front.
    pub(crate) fn next(&mut self) -> Option<char>
        ensures some { IfSome result (λ c. self.old ≡ c ∷ self.new) }
        ensures none { IfNone result ((self.old ≡ []) × (self.new ≡ [])) }
    {
        let mut chars = self.rest.chars();
        let character = chars.next()?;
        self.rest = chars.as_str();
        Some(character)
    }

    /// Whether this character stands at the front.
    pub(crate) fn starts_with(&self, character: char) -> bool
        ensures { result ≡ begins_with character self.now }
    {
        self.peek() == Some(character)
    }

    /// Takes this character, where it stands at the front, and says whether it does.
    pub(crate) fn take(&mut self, character: char) -> bool
        ensures result { result ≡ begins_with character self.old }
        ensures rest { self.new ≡ (if begins_with character self.old then drop 1 self.old else self.old) }
    {
        if self.starts_with(character) {
            self.next();
            true
        } else {
            false
        }
    }

    /// Takes the blanks at the front: spaces and TABs.
    pub(crate) fn skip_blanks(&mut self)
        ensures { self.new ≡ skip_blanks self.old }
    {
        while self.starts_blank() {
            self.next();
        }
    }

    fn starts_blank(&self) -> bool
        ensures { result ≡ begins_blank self.now }
    {
        matches!(self.peek(), Some(' ' | '\t'))
    }

    /// Whether `_:` and a label's first character stand at the front.
    pub(crate) fn starts_node(&self) -> bool
        ensures { result ≡ begins_node self.now }
    {
        let mut ahead = self.fork();
        ahead.take('_') && ahead.take(':') && ahead.starts_label()
    }

    /// Whether a label's first character stands at the front.
    fn starts_label(&self) -> bool
        ensures { result ≡ begins_label self.now }
    {
        match self.peek() {
            Some(character) => is_label_start(character),
            None => false,
        }
    }

    /// Whether `^^` stands at the front.
    pub(crate) fn starts_datatype(&self) -> bool
        ensures { result ≡ begins_datatype self.now }
    {
        let mut ahead = self.fork();
        ahead.take('^') && ahead.starts_with('^')
    }
}
