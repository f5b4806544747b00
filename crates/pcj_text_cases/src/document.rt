use pcj_case_lines::{Answer, Unanswered, number, size, word};
use pcj_ntriples::{NtError, NtKind, NtRefusal, nt_number, read_document};
use pcj_term::{Bytes, Items, Memory, Triple, TryClone};
use std::alloc::Global;

/// The triples of a document, or its refusal, which is told.
fn read(
    alloc: Global,
    out: &mut Answer,
    text: &[u8],
    load: u64,
) -> Result<Option<Items<Triple>>, Unanswered> {
    match read_document(alloc, text, load) {
        Ok(triples) => Ok(Some(triples)),
        Err(NtRefusal::Memory) => Err(Unanswered::Memory),
        Err(NtRefusal::Refused(error)) => {
            refused(out, error)?;
            Ok(None)
        }
    }
}

fn refused(out: &mut Answer, error: NtError) -> Result<(), Unanswered> {
    out.word("refused")?;
    out.number(error.line)?;
    out.number(u64::from(nt_number(error.kind)))
}

/// `read_document LOAD TEXT`: `triples` and the printed terms of each, or `refused` with the line and the number of the kind.
pub(crate) fn read_case(
    alloc: Global,
    out: &mut Answer,
    arguments: &[Bytes],
) -> Result<(), Unanswered> {
    let [load, text] = arguments else {
        return Err(Unanswered::NoCase);
    };
    match read(alloc, out, text.as_slice(), number(load)?)? {
        Some(triples) => show(out, triples.as_slice()),
        None => Ok(()),
    }
}

fn show(out: &mut Answer, triples: &[Triple]) -> Result<(), Unanswered> {
    out.word("triples")?;
    for triple in triples {
        out.triple(triple)?;
    }
    Ok(())
}

/// `read_long LOAD BEFORE OPENING CLOSING AFTER LENGTH`: a line is made of a term between two texts and read. The
/// term is the opening, the letter `x` again and again, and the closing, and has that many bytes. The answer is
/// `triples` and how many there are, or `refused` as above.
pub(crate) fn read_long_case(
    alloc: Global,
    out: &mut Answer,
    arguments: &[Bytes],
) -> Result<(), Unanswered> {
    let [load, before, opening, closing, after, length] = arguments else {
        return Err(Unanswered::NoCase);
    };
    let ends = opening.len().saturating_add(closing.len());
    let mut line = before.try_clone(alloc)?;
    push_long(
        &mut line,
        opening,
        closing,
        size(length)?.saturating_sub(ends),
    )?;
    line.extend_from_slice(after.as_slice())?;
    count(alloc, out, &line, number(load)?)
}

/// Adds the opening, as many letters, and the closing.
fn push_long(
    line: &mut Bytes,
    opening: &Bytes,
    closing: &Bytes,
    letters: usize,
) -> Result<(), Memory> {
    line.extend_from_slice(opening.as_slice())?;
    for _ in 0..letters {
        line.push(b'x')?;
    }
    line.extend_from_slice(closing.as_slice())
}

/// Tells how many triples a text has.
fn count(alloc: Global, out: &mut Answer, text: &Bytes, load: u64) -> Result<(), Unanswered> {
    match read(alloc, out, text.as_slice(), load)? {
        Some(triples) => {
            out.word("triples")?;
            out.number(triples.len() as u64)
        }
        None => Ok(()),
    }
}

/// `read_many LOAD COUNT`: a document of so many distinct triples, each on two lines, is made and read. The answer is
/// `triples` and how many there are, or `refused` as above.
pub(crate) fn read_many_case(
    alloc: Global,
    out: &mut Answer,
    arguments: &[Bytes],
) -> Result<(), Unanswered> {
    let [load, triples] = arguments else {
        return Err(Unanswered::NoCase);
    };
    let text = many_lines(alloc, number(triples)?)?;
    count(alloc, out, &text, number(load)?)
}

fn many_lines(alloc: Global, count: u64) -> Result<Bytes, Unanswered> {
    let mut text = Bytes::new(alloc);
    for at in 0..count {
        push_twice(alloc, &mut text, at)?;
    }
    Ok(text)
}

/// Adds two lines of one triple, the first with a comment.
fn push_twice(alloc: Global, text: &mut Bytes, at: u64) -> Result<(), Unanswered> {
    let lines = format!(in alloc; "_:b{at} <a:p> \"x\" . # {at}\n_:b{at} <a:p> \"x\" .\n")?;
    Ok(text.extend_from_slice(lines.as_bytes())?)
}

fn kind(field: &Bytes) -> Result<NtKind, Unanswered> {
    match word(field) {
        "not_utf8" => Ok(NtKind::NotUtf8),
        "subject_expected" => Ok(NtKind::SubjectExpected),
        "predicate_expected" => Ok(NtKind::PredicateExpected),
        "object_expected" => Ok(NtKind::ObjectExpected),
        "dot_expected" => Ok(NtKind::DotExpected),
        "iri_char" => Ok(NtKind::IriChar),
        "iri_open" => Ok(NtKind::IriOpen),
        "string_open" => Ok(NtKind::StringOpen),
        "bad_escape" => Ok(NtKind::BadEscape),
        "bad_tag" => Ok(NtKind::BadTag),
        "relative_iri" => Ok(NtKind::RelativeIri),
        "trailing_text" => Ok(NtKind::TrailingText),
        "term_too_long" => Ok(NtKind::TermTooLong),
        "too_many" => Ok(NtKind::TooMany),
        _ => Err(Unanswered::NoCase),
    }
}

/// `nt_number KIND`: the kind's number.
pub(crate) fn number_case(out: &mut Answer, arguments: &[Bytes]) -> Result<(), Unanswered> {
    let [field] = arguments else {
        return Err(Unanswered::NoCase);
    };
    out.number(u64::from(nt_number(kind(field)?)))
}

/// `copy_refusal LINE KIND`: whether the copy of the refusal, of copies of its parts, equals the refusal; and the copy.
pub(crate) fn copy_refusal_case(
    alloc: Global,
    out: &mut Answer,
    arguments: &[Bytes],
) -> Result<(), Unanswered> {
    let [line, field] = arguments else {
        return Err(Unanswered::NoCase);
    };
    let error = NtError {
        line: number(line)?,
        kind: kind(field)?,
    };
    let copy = NtError {
        line: error.line,
        kind: error.kind.try_clone(alloc)?,
    };
    let refusal = NtRefusal::Refused(copy.try_clone(alloc)?);
    let refusal = refusal.try_clone(alloc)?;
    out.flag(refusal == NtRefusal::Refused(error))?;
    match refusal {
        NtRefusal::Refused(copy) => refused(out, copy),
        NtRefusal::Memory => out.word("memory"),
    }
}
