ghost use Rattle.std.specs.Prelude.{◌≡◌, ◌+◌, ◌≤◌, ◌∷◌, length, take, drop, map, IfOk};
ghost use Rattle.std.specs.Char.{to_ascii_lowercase};
ghost use Rattle.std.specs.List.{prefix_len};
ghost use Rattle.pcj_translate.specs.Term.{source_of, is_no_colon, prefix_of, local_of, inside_of, escaped_by, unescaped, text_of, tag_of, kind_of_datatype, integer_term};

use pcj_grammar::Lexeme;
use pcj_term::{Bytes, Kind, Memory, Term};
use std::alloc::Global;

/// The bytes of a token.
pub fn source_of(text: &[u8], lexeme: Lexeme) -> &[u8]
    ensures { result.now ≡ source_of text.now lexeme }
{
    let (_, rest) = text.split_at(lexeme.at.min(text.len()));
    let (source, _) = rest.split_at(lexeme.end.saturating_sub(lexeme.at).min(rest.len()));
    source
}

/// How many bytes stand before a prefixed name's first colon.
fn prefix_len(source: &[u8]) -> usize
    ensures { result ≡ prefix_len is_no_colon source.now }
{
    source.iter().take_while(|byte| **byte != b':').count()
}

/// What stands before a prefixed name's first colon.
pub fn prefix_of(source: &[u8]) -> &[u8]
    ensures { result.now ≡ prefix_of source.now }
{
    let (prefix, _) = source.split_at(prefix_len(source));
    prefix
}

/// What stands behind a prefixed name's first colon.
pub(crate) fn local_of(source: &[u8]) -> &[u8]
    ensures { result.now ≡ local_of source.now }
{
    let (_, colon) = source.split_at(prefix_len(source));
    behind_first(colon)
}

/// What stands behind the first byte: a variable's name, or a tag.
pub fn behind_first(source: &[u8]) -> &[u8]
    ensures { result.now ≡ drop 1 source.now }
{
    match source {
        [] => source,
        [_, rest @ ..] => rest,
    }
}

/// What stands between the brackets of an IRI, or the quotes of a string.
pub fn inside_of(source: &[u8]) -> &[u8]
    ensures { result.now ≡ inside_of source.now }
{
    let rest = behind_first(source);
    let (inside, _) = rest.split_at(rest.len().saturating_sub(1));
    inside
}

/// What a letter behind a backslash stands for (SPARQL 1.1 Query, section 19.7).
fn escaped_by(letter: u8) -> u8
    ensures { result ≡ escaped_by letter }
{
    match letter {
        b't' => b'\t',
        b'b' => 8,
        b'n' => b'\n',
        b'r' => b'\r',
        b'f' => 12,
        _ => letter,
    }
}

/// The text of a string, without its quotes and escapes.
pub(crate) fn text_of(alloc: Global, source: &[u8]) -> Result<Bytes, Memory>
    ensures { IfOk result (λ text. text ≡ text_of source.now) }
{
    let mut text = Bytes::new(alloc);
    let mut rest = inside_of(source);
    while let [byte, more @ ..] = rest {
        let (taken, after) = character_at(*byte, more);
        text.push(taken)?;
        rest = after;
    }
    Ok(text)
}

/// A byte of a text, raw or by its escape, and what follows it.
fn character_at(byte: u8, more: &[u8]) -> (u8, &[u8])
    ensures taken { unescaped (byte ∷ more.now) ≡ result.0 ∷ unescaped result.1.now }
    ensures shorter { length result.1.now ≤ length more.now }
{
    match more {
        [letter, rest @ ..] if byte == b'\\' => (escaped_by(*letter), rest),
        _ => (byte, more),
    }
}

/// A tag in lower case, without its sign.
pub(crate) fn tag_of(alloc: Global, source: &[u8]) -> Result<Bytes, Memory>
    ensures { IfOk result (λ tag. tag ≡ tag_of source.now) }
{
    let mut tag = Bytes::new(alloc);
    for byte in behind_first(source) {
        tag.push(byte.to_ascii_lowercase())?;
    }
    Ok(tag)
}

/// A literal's kind by its datatype.
pub(crate) fn kind_of_datatype(datatype: Bytes) -> Kind
    ensures { result ≡ kind_of_datatype datatype }
{
    if datatype.as_slice() == b"http://www.w3.org/2001/XMLSchema#string".as_slice() {
        Kind::Plain
    } else {
        Kind::Typed(datatype)
    }
}

/// An integer's literal.
pub(crate) fn integer_term(alloc: Global, source: &[u8]) -> Result<Term, Memory>
    ensures { IfOk result (λ term. term ≡ integer_term source.now) }
{
    let text = Bytes::from_slice(alloc, source)?;
    let datatype = Bytes::from_slice(alloc, b"http://www.w3.org/2001/XMLSchema#integer")?;
    Ok(Term::Literal {
        text,
        kind: Kind::Typed(datatype),
    })
}
