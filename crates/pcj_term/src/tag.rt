ghost use Rattle.std.specs.Prelude.{◌≡◌, ◌==◌, not};
ghost use Rattle.std.specs.List.{list_all, list_any, slice_split, take_while};
ghost use Rattle.pcj_term.specs.Iri.{is_letter, is_letter_or_digit};
ghost use Rattle.pcj_term.specs.Tag.{is_capital, is_subtag, is_language_tag, is_lower_case};

use crate::iri::{is_letter, is_letter_or_digit};

/// Whether these are the bytes of a language tag, without the `@` (RDF 1.1 N-Triples, `LANGTAG`).
pub fn is_language_tag(tag: &[u8]) -> bool
    ensures { result ≡ is_language_tag tag.now }
{
    has_subtags_alone(tag) && begins_with_letters(tag)
}

fn has_subtags_alone(tag: &[u8]) -> bool
    ensures { result ≡ list_all is_subtag (slice_split (λ byte. byte == 45) tag.now) }
{
    tag.split(|byte| *byte == b'-')
        .all(|subtag| is_subtag(subtag))
}

fn begins_with_letters(tag: &[u8]) -> bool
    ensures { result ≡ list_all is_letter (take_while (λ byte. not (byte == 45)) tag.now) }
{
    tag.iter()
        .take_while(|byte| **byte != b'-')
        .all(|byte| is_letter(*byte))
}

fn is_subtag(bytes: &[u8]) -> bool
    ensures { result ≡ is_subtag bytes.now }
{
    !bytes.is_empty() && has_letters_and_digits_alone(bytes)
}

fn has_letters_and_digits_alone(bytes: &[u8]) -> bool
    ensures { result ≡ list_all is_letter_or_digit bytes.now }
{
    bytes.iter().all(|byte| is_letter_or_digit(*byte))
}

/// Whether no byte is a capital letter of ASCII.
pub fn is_lower_case(bytes: &[u8]) -> bool
    ensures { result ≡ is_lower_case bytes.now }
{
    bytes.iter().all(|byte| !byte.is_ascii_uppercase())
}
