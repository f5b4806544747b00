ghost use Rattle.std.specs.Prelude.{◌≡◌};
ghost use Rattle.pcj_term.specs.Iri.{is_iri_mark};
ghost use Rattle.pcj_ntriples.specs.Text.{closing_of, allows_character, short_escape, short_escape_of, unclosed_of};

use crate::kind::NtKind;

/// What stands between two marks: an IRI between brackets, or a string between quotes.
#[derive(Clone, Copy)]
pub(crate) enum Enclosure {
    Iri,
    String,
}

impl Enclosure {
    /// The mark at the end.
    pub(crate) fn closing(self) -> char
        ensures { result ≡ closing_of self }
    {
        match self {
            Enclosure::Iri => '>',
            Enclosure::String => '"',
        }
    }

    /// Whether a character may stand there, raw or by an escape.
    pub(crate) fn allows(self, character: char) -> bool
        ensures { result ≡ allows_character self character }
    {
        match self {
            Enclosure::Iri => character > ' ' && !is_iri_mark(character),
            Enclosure::String => true,
        }
    }

    /// The character that a backslash and this letter stand for, where they do.
    pub(crate) fn short_escape(self, letter: char) -> Option<char>
        ensures { result ≡ short_escape_of self letter }
    {
        match self {
            Enclosure::Iri => None,
            Enclosure::String => short_escape(letter),
        }
    }

    /// What is wrong where the line ends inside.
    pub(crate) fn unclosed(self) -> NtKind
        ensures { result ≡ unclosed_of self }
    {
        match self {
            Enclosure::Iri => NtKind::IriOpen,
            Enclosure::String => NtKind::StringOpen,
        }
    }
}

/// The character that a backslash and this letter stand for in a string (RDF 1.1 N-Triples, `ECHAR`).
fn short_escape(letter: char) -> Option<char>
    ensures { result ≡ short_escape letter }
{
    match letter {
        't' => Some('\t'),
        'b' => Some('\u{8}'),
        'n' => Some('\n'),
        'r' => Some('\r'),
        'f' => Some('\u{c}'),
        '"' | '\'' | '\\' => Some(letter),
        _ => None,
    }
}

/// Whether a printable character is forbidden in an IRI (RDF 1.1 N-Triples, `IRIREF`).
fn is_iri_mark(character: char) -> bool
    ensures { result ≡ is_iri_mark character }
{
    matches!(
        character,
        '<' | '>' | '"' | '{' | '}' | '|' | '^' | '`' | '\\'
    )
}
