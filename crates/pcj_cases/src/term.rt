use crate::argument::triple;
use crate::name::show_rows;
use pcj_case_lines::{Answer, Unanswered, number, word};
use pcj_term::{Bytes, Kind, Term, Triple, TryClone, integer_of, print_term, push_term, read_term};
use std::alloc::Global;

/// The term that fields spell: `iri` and its text, `blank` with a load and a label, `literal` and its text, `lang`
/// with a text and a tag, or `typed` with a text and a datatype.
fn spelled_term(alloc: Global, fields: &[Bytes]) -> Result<Term, Unanswered> {
    match fields {
        [kind, text] => one_part(alloc, word(kind), text),
        [kind, first, second] => two_parts(alloc, word(kind), first, second),
        _ => Err(Unanswered::NoCase),
    }
}

fn one_part(alloc: Global, kind: &str, text: &Bytes) -> Result<Term, Unanswered> {
    match kind {
        "iri" => Ok(Term::Iri(text.try_clone(alloc)?)),
        "literal" => literal(alloc, text, Kind::Plain),
        _ => Err(Unanswered::NoCase),
    }
}

fn two_parts(alloc: Global, kind: &str, first: &Bytes, second: &Bytes) -> Result<Term, Unanswered> {
    let part = second.try_clone(alloc)?;
    match kind {
        "blank" => Ok(Term::Blank {
            load: number(first)?,
            label: part,
        }),
        "lang" => literal(alloc, first, Kind::Lang(part)),
        "typed" => literal(alloc, first, Kind::Typed(part)),
        _ => Err(Unanswered::NoCase),
    }
}

fn literal(alloc: Global, text: &Bytes, kind: Kind) -> Result<Term, Unanswered> {
    Ok(Term::Literal {
        text: text.try_clone(alloc)?,
        kind,
    })
}

/// Adds the fields that spell a term.
fn spell_term(out: &mut Answer, term: &Term) -> Result<(), Unanswered> {
    match term {
        Term::Iri(iri) => {
            out.word("iri")?;
            out.bytes(iri.as_slice())
        }
        Term::Blank { load, label } => {
            out.word("blank")?;
            out.number(*load)?;
            out.bytes(label.as_slice())
        }
        Term::Literal { text, kind } => spell_literal(out, text.as_slice(), kind),
    }
}

fn spell_literal(out: &mut Answer, text: &[u8], kind: &Kind) -> Result<(), Unanswered> {
    match kind {
        Kind::Plain => {
            out.word("literal")?;
            out.bytes(text)
        }
        Kind::Lang(tag) => {
            out.word("lang")?;
            out.bytes(text)?;
            out.bytes(tag.as_slice())
        }
        Kind::Typed(datatype) => {
            out.word("typed")?;
            out.bytes(text)?;
            out.bytes(datatype.as_slice())
        }
    }
}

/// Answers a call on a term. `print_term`: the printed form. `copy_term`: whether the copy equals the term, and the copy.
/// `integer_of`: the value, or `none`.
pub(crate) fn term_case(
    alloc: Global,
    out: &mut Answer,
    call: &str,
    arguments: &[Bytes],
) -> Result<(), Unanswered> {
    let term = spelled_term(alloc, arguments)?;
    answer_term(alloc, out, call, &term)
}

fn answer_term(alloc: Global, out: &mut Answer, call: &str, term: &Term) -> Result<(), Unanswered> {
    match call {
        "print_term" => out.term(term),
        "copy_term" => show_copy(alloc, out, term),
        "integer_of" => show_integer(alloc, out, integer_of(term)),
        _ => Err(Unanswered::NoCase),
    }
}

/// `push_term FRONT TERM`: the front with the printed form behind it.
pub(crate) fn push_case(
    alloc: Global,
    out: &mut Answer,
    arguments: &[Bytes],
) -> Result<(), Unanswered> {
    let [front, term @ ..] = arguments else {
        return Err(Unanswered::NoCase);
    };
    let term = spelled_term(alloc, term)?;
    show_behind(alloc, out, front, &term)
}

fn show_behind(
    alloc: Global,
    out: &mut Answer,
    front: &Bytes,
    term: &Term,
) -> Result<(), Unanswered> {
    let mut text = front.try_clone(alloc)?;
    push_term(alloc, &mut text, term)?;
    out.bytes(text.as_slice())
}

fn show_copy(alloc: Global, out: &mut Answer, term: &Term) -> Result<(), Unanswered> {
    let copy = term.try_clone(alloc)?;
    compare_terms(out, term, &copy)
}

fn compare_terms(out: &mut Answer, term: &Term, copy: &Term) -> Result<(), Unanswered> {
    out.flag(copy == term)?;
    spell_term(out, copy)
}

/// `read_term BYTES`: the term that the bytes print, or `none`.
pub(crate) fn read_case(
    alloc: Global,
    out: &mut Answer,
    arguments: &[Bytes],
) -> Result<(), Unanswered> {
    let [printed] = arguments else {
        return Err(Unanswered::NoCase);
    };
    match read_term(alloc, printed.as_slice())? {
        Some(term) => spell_term(out, &term),
        None => out.word("none"),
    }
}

fn show_integer(alloc: Global, out: &mut Answer, value: Option<i64>) -> Result<(), Unanswered> {
    let Some(value) = value else {
        return out.word("none");
    };
    let text = format!(in alloc; "{value}")?;
    out.word(text.as_str())
}

/// Answers a call on the triple of three printed terms. `copy_triple`: whether the copy equals the triple, and the copy.
/// `triple_rows`: the keys of its rows.
pub(crate) fn triple_case(
    alloc: Global,
    out: &mut Answer,
    call: &str,
    arguments: &[Bytes],
) -> Result<(), Unanswered> {
    let triple = triple(alloc, arguments)?;
    answer_triple(alloc, out, call, &triple)
}

fn answer_triple(
    alloc: Global,
    out: &mut Answer,
    call: &str,
    triple: &Triple,
) -> Result<(), Unanswered> {
    match call {
        "copy_triple" => show_triple_copy(alloc, out, triple),
        "triple_rows" => show_rows(alloc, out, triple),
        _ => Err(Unanswered::NoCase),
    }
}

fn show_triple_copy(alloc: Global, out: &mut Answer, triple: &Triple) -> Result<(), Unanswered> {
    let copy = triple.try_clone(alloc)?;
    compare_triples(out, triple, &copy)
}

fn compare_triples(out: &mut Answer, triple: &Triple, copy: &Triple) -> Result<(), Unanswered> {
    out.flag(copy == triple)?;
    out.triple(copy)
}
