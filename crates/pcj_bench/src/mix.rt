use crate::failure::Failure;
use pcj_term::{Bytes, Term, print_term, read_term};
use std::alloc::Global;

/// How often a mix is worked on.
pub const ROUNDS: u32 = 50_000;

/// Printed terms of each kind, short and long, with and without escapes: a front, a piece several times, and a back.
const MIX: [(&str, &str, u32, &str); 8] = [
    ("<http://e.org/a>", "", 0, ""),
    ("<http://e.org/", "path/", 40, ">"),
    ("_:123456.node7", "", 0, ""),
    ("\"5\"", "", 0, ""),
    ("\"", "plain words and no more ", 80, "\""),
    ("\"", "a line,\\ta \\\"quote\\\"\\n", 80, "\""),
    ("\"", "caf\u{e9} ", 4, "\"@en-gb"),
    (
        "\"42",
        "",
        0,
        "\"^^<http://www.w3.org/2001/XMLSchema#integer>",
    ),
];

/// The mixed terms.
pub fn mixed_terms(alloc: Global) -> Result<Vec<Term>, Failure> {
    let mut terms = Vec::new(alloc);
    for (front, piece, times, back) in MIX {
        let text = repeated(alloc, front.as_bytes(), piece.as_bytes(), times)?;
        terms.push(term_of(alloc, text, back.as_bytes())?)?;
    }
    Ok(terms)
}

/// The mixed terms as they are printed.
pub fn printed_terms(alloc: Global) -> Result<Vec<Bytes>, Failure> {
    let terms = mixed_terms(alloc)?;
    print_each(alloc, &terms)
}

fn print_each(alloc: Global, terms: &[Term]) -> Result<Vec<Bytes>, Failure> {
    let mut texts = Vec::new(alloc);
    for term in terms {
        texts.push(print_term(alloc, term)?)?;
    }
    Ok(texts)
}

/// The term whose printed form is a front and a back.
fn term_of(alloc: Global, front: Bytes, back: &[u8]) -> Result<Term, Failure> {
    let mut text = front;
    text.extend_from_slice(back)?;
    read_term(alloc, text.as_slice())?.ok_or(Failure::Document)
}

/// A front and then a piece several times.
fn repeated(alloc: Global, front: &[u8], piece: &[u8], times: u32) -> Result<Bytes, Failure> {
    let mut bytes = Bytes::from_slice(alloc, front)?;
    for _ in 0..times {
        bytes.extend_from_slice(piece)?;
    }
    Ok(bytes)
}
