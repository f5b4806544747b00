ghost use Rattle.std.specs.Prelude.{◌≡◌};
ghost use Rattle.pcj_term.specs.Iri.{is_iri_mark, is_iri_character};
ghost use Rattle.pcj_lex.specs.Characters.{is_blank, is_line_end, is_quote, is_escape_letter, is_variable_start, is_variable_character, is_prefix_character, is_word_character, is_mark_character, is_long_mark, is_outside_mark};

use pcj_term::{is_name_base, is_name_character};

/// White space (SPARQL 1.1 Query, section 19.8, `WS`).
pub(crate) fn is_blank(character: char) -> bool
    ensures { result ≡ is_blank character }
{
    matches!(character, ' ' | '\t' | '\r' | '\n')
}

pub(crate) fn is_line_end(character: char) -> bool
    ensures { result ≡ is_line_end character }
{
    matches!(character, '\r' | '\n')
}

pub(crate) fn is_quote(character: char) -> bool
    ensures { result ≡ is_quote character }
{
    matches!(character, '"' | '\'')
}

/// Whether a letter stands after the backslash of an escape (`ECHAR`).
pub(crate) fn is_escape_letter(character: char) -> bool
    ensures { result ≡ is_escape_letter character }
{
    matches!(character, 't' | 'b' | 'n' | 'r' | 'f' | '"' | '\'' | '\\')
}

/// Whether a character may stand in an IRI (`IRIREF`).
pub(crate) fn is_iri_character(character: char) -> bool
    ensures { result ≡ is_iri_character character }
{
    character > ' ' && !is_iri_mark(character)
}

fn is_iri_mark(character: char) -> bool
    ensures { result ≡ is_iri_mark character }
{
    matches!(
        character,
        '<' | '>' | '"' | '{' | '}' | '|' | '^' | '`' | '\\'
    )
}

/// Whether a variable's name may begin with a character (`VARNAME`).
pub(crate) fn is_variable_start(character: char) -> bool
    ensures { result ≡ is_variable_start character }
{
    is_name_base(character) || character == '_' || character.is_ascii_digit()
}

/// Whether a variable's name may go on with a character (`VARNAME`).
pub(crate) fn is_variable_character(character: char) -> bool
    ensures { result ≡ is_variable_character character }
{
    is_name_character(character) && character != '-' && character != ':'
}

/// Whether a prefix may go on with a character (`PN_PREFIX`).
pub(crate) fn is_prefix_character(character: char) -> bool
    ensures { result ≡ is_prefix_character character }
{
    (is_name_character(character) && character != ':') || character == '.'
}

/// Whether a word may go on with a character.
pub(crate) fn is_word_character(character: char) -> bool
    ensures { result ≡ is_word_character character }
{
    character.is_ascii_alphanumeric() || character == '_'
}

/// Whether a character is a mark by itself.
pub(crate) fn is_mark_character(character: char) -> bool
    ensures { result ≡ is_mark_character character }
{
    matches!(
        character,
        '{' | '}' | '(' | ')' | '.' | ';' | ',' | '=' | '<' | '>' | '!'
    )
}

/// Whether two characters are a mark.
pub(crate) fn is_long_mark(first: char, second: char) -> bool
    ensures { result ≡ is_long_mark first second }
{
    (second == '=' && matches!(first, '!' | '<' | '>'))
        || (second == first && matches!(first, '&' | '|' | '^'))
}

/// Whether a character is a mark that the profile leaves out.
pub(crate) fn is_outside_mark(character: char) -> bool
    ensures { result ≡ is_outside_mark character }
{
    matches!(
        character,
        '*' | '+' | '-' | '/' | '^' | '|' | '[' | ']' | '%' | '\\'
    )
}
