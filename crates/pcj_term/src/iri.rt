ghost use Rattle.std.specs.Prelude.{◌≡◌};
ghost use Rattle.std.specs.List.{list_all};
ghost use Rattle.pcj_term.specs.Iri.{is_letter, is_letter_or_digit, is_scheme_byte, is_iri_mark, is_iri_byte, is_iri_character, ends_scheme, is_absolute, is_iri_text, is_absolute_iri};

use crate::utf8::is_utf8;

/// Whether a byte is a letter of ASCII.
pub fn is_letter(byte: u8) -> bool
    ensures { result ≡ is_letter byte }
{
    byte.is_ascii_alphabetic()
}

pub(crate) fn is_letter_or_digit(byte: u8) -> bool
    ensures { result ≡ is_letter_or_digit byte }
{
    byte.is_ascii_alphanumeric()
}

/// Whether these are the bytes between the brackets of an IRI: it is absolute, its bytes are printable
/// ASCII, and none of them is one that N-Triples forbids there (RDF 1.1 N-Triples, `IRIREF`).
pub fn is_iri(bytes: &[u8]) -> bool
    ensures { result ≡ is_iri_text bytes.now }
{
    has_iri_bytes_alone(bytes) && is_absolute(bytes)
}

/// Whether these are the bytes of an absolute IRI in UTF-8, without brackets and escapes
/// (RDF 1.1 N-Triples, `IRIREF`).
pub fn is_absolute_iri(bytes: &[u8]) -> bool
    ensures { result ≡ is_absolute_iri bytes.now }
{
    is_utf8(bytes) && has_iri_characters_alone(bytes) && is_absolute(bytes)
}

fn has_iri_characters_alone(bytes: &[u8]) -> bool
    ensures { result ≡ list_all is_iri_character bytes.now }
{
    bytes.iter().all(|byte| is_iri_character(*byte))
}

/// Whether a byte may stand in an IRI: the ASCII character that it is, or a part of any other character.
fn is_iri_character(byte: u8) -> bool
    ensures { result ≡ is_iri_character byte }
{
    byte > b' ' && !is_iri_mark(byte)
}

fn is_iri_mark(byte: u8) -> bool
    ensures { result ≡ is_iri_mark byte }
{
    b"<>\"{}|^`\\".contains(&byte)
}

fn has_iri_bytes_alone(bytes: &[u8]) -> bool
    ensures { result ≡ list_all is_iri_byte bytes.now }
{
    bytes.iter().all(|byte| is_iri_byte(*byte))
}

fn is_iri_byte(byte: u8) -> bool
    ensures { result ≡ is_iri_byte byte }
{
    byte.is_ascii_graphic() && !is_iri_mark(byte)
}

fn is_scheme_byte(byte: u8) -> bool
    ensures { result ≡ is_scheme_byte byte }
{
    is_letter_or_digit(byte) || byte == b'+' || byte == b'-' || byte == b'.'
}

/// Whether the bytes begin with a scheme and a colon (RFC 3986, section 3.1).
pub fn is_absolute(bytes: &[u8]) -> bool
    ensures { result ≡ is_absolute bytes.now }
{
    match bytes {
        [] => false,
        [first, rest @ ..] => is_letter(*first) && ends_scheme(rest),
    }
}

fn ends_scheme(bytes: &[u8]) -> bool
    ensures { result ≡ ends_scheme bytes.now }
{
    for byte in bytes {
        if *byte == b':' {
            return true;
        }
        if !is_scheme_byte(*byte) {
            return false;
        }
    }
    false
}
