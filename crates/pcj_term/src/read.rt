ghost use Rattle.std.specs.Prelude.{◌≡◌, IfOk};
ghost use Rattle.std.specs.Option.{option_map};
ghost use Rattle.pcj_term.specs.declared.term.Term.TheVariants.{Iri};
ghost use Rattle.pcj_term.specs.Read.{Reads};
ghost use Rattle.pcj_term.specs.Reading.{term_of, iri_of, node_of, blank_of, literal_of, kind_of_suffix, lang_of, typed_of};

use crate::label::is_label;
use crate::pieces::{after, cut, iri_of, number_of_digits};
use crate::read_text::text_at;
use crate::tag::{is_language_tag, is_lower_case};
use crate::utf8::is_utf8;
use crate::{Bytes, Kind, Memory, Term};
use std::alloc::Global;

/// The valid term whose printed form these bytes are, or `None` where they are that of no valid term.
pub fn read_term(alloc: Global, bytes: &[u8]) -> Result<Option<Term>, Memory>
    ensures { IfOk result (λ term. Reads bytes.now term) }
{
    term_of(alloc, bytes)
}

#[tactic(auto, unfolding(crate::specs::Reading::term_of))]
fn term_of(alloc: Global, bytes: &[u8]) -> Result<Option<Term>, Memory>
    ensures { IfOk result (λ term. term ≡ term_of bytes.now) }
{
    match bytes {
        [b'<', ..] => iri_term_of(alloc, bytes),
        [b'_', ..] => blank_of(alloc, bytes),
        [b'"', ..] => literal_of(alloc, bytes),
        _ => Ok(None),
    }
}

fn iri_term_of(alloc: Global, bytes: &[u8]) -> Result<Option<Term>, Memory>
    ensures { IfOk result (λ term. term ≡ option_map Iri (iri_of bytes.now)) }
{
    match iri_of(bytes) {
        Some(iri) => Ok(Some(Term::Iri(Bytes::from_slice(alloc, iri)?))),
        None => Ok(None),
    }
}

fn blank_of(alloc: Global, bytes: &[u8]) -> Result<Option<Term>, Memory>
    ensures { IfOk result (λ term. term ≡ blank_of bytes.now) }
{
    match node_of(bytes) {
        Some((load, label)) => Ok(Some(Term::Blank {
            load,
            label: Bytes::from_slice(alloc, label)?,
        })),
        None => Ok(None),
    }
}

/// A blank node's load and its label there.
#[tactic(auto, unfolding(crate::specs::Reading::node_of))]
fn node_of(bytes: &[u8]) -> Option<(u64, &[u8])>
    ensures { option_map (λ parts. (parts.0, parts.1.now)) result ≡ node_of bytes.now }
{
    let name = after(after(after(bytes, b'_')?, b':')?, b't')?;
    let (digits, label) = cut(name, b'x')?;
    let load = number_of_digits(digits)?;
    if is_label(label) {
        Some((load, label))
    } else {
        None
    }
}

#[tactic(auto, unfolding(crate::specs::Reading::literal_of))]
fn literal_of(alloc: Global, bytes: &[u8]) -> Result<Option<Term>, Memory>
    ensures { IfOk result (λ term. term ≡ literal_of bytes.now) }
{
    let Some(inner) = after(bytes, b'"') else {
        return Ok(None);
    };
    let Some((text, suffix)) = text_at(alloc, inner)? else {
        return Ok(None);
    };
    if !is_utf8(text.as_slice()) {
        return Ok(None);
    }
    match kind_of_suffix(alloc, suffix)? {
        Some(kind) => Ok(Some(Term::Literal { text, kind })),
        None => Ok(None),
    }
}

#[tactic(auto, unfolding(crate::specs::Reading::kind_of_suffix))]
fn kind_of_suffix(alloc: Global, suffix: &[u8]) -> Result<Option<Kind>, Memory>
    ensures { IfOk result (λ kind. kind ≡ kind_of_suffix suffix.now) }
{
    match suffix {
        [] => Ok(Some(Kind::Plain)),
        [b'@', tag @ ..] => lang_of(alloc, tag),
        [b'^', b'^', brackets @ ..] => typed_of(alloc, brackets),
        _ => Ok(None),
    }
}

fn lang_of(alloc: Global, tag: &[u8]) -> Result<Option<Kind>, Memory>
    ensures { IfOk result (λ kind. kind ≡ lang_of tag.now) }
{
    if is_language_tag(tag) && is_lower_case(tag) {
        Ok(Some(Kind::Lang(Bytes::from_slice(alloc, tag)?)))
    } else {
        Ok(None)
    }
}

fn typed_of(alloc: Global, brackets: &[u8]) -> Result<Option<Kind>, Memory>
    ensures { IfOk result (λ kind. kind ≡ typed_of brackets.now) }
{
    match iri_of(brackets) {
        Some(datatype) if datatype != b"http://www.w3.org/2001/XMLSchema#string".as_slice() => {
            Ok(Some(Kind::Typed(Bytes::from_slice(alloc, datatype)?)))
        }
        _ => Ok(None),
    }
}
