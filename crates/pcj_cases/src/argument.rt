use pcj_case_lines::{Unanswered, word};
use pcj_term::{Bytes, Items, Term, Triple, TryClone, read_term};
use std::alloc::Global;
use std::str::FromStr;

/// The number of a node that a field writes.
pub(crate) fn node(field: &Bytes) -> Result<u16, Unanswered> {
    word(field).parse::<u16>().ok().ok_or(Unanswered::NoCase)
}

/// The one byte that a field is.
pub(crate) fn byte(field: &Bytes) -> Result<u8, Unanswered> {
    match field.as_slice() {
        [byte] => Ok(*byte),
        _ => Err(Unanswered::NoCase),
    }
}

/// The one character that a field is.
pub(crate) fn character(field: &Bytes) -> Result<char, Unanswered> {
    word(field).parse::<char>().ok().ok_or(Unanswered::NoCase)
}

/// The value to put that a field is, after its plus sign, or none where it is a minus sign.
pub(crate) fn value(alloc: Global, field: &Bytes) -> Result<Option<Bytes>, Unanswered> {
    match field.as_slice() {
        [b'-'] => Ok(None),
        [b'+', value @ ..] => Ok(Some(Bytes::from_slice(alloc, value)?)),
        _ => Err(Unanswered::NoCase),
    }
}

/// Copies of the fields.
pub(crate) fn list(alloc: Global, fields: &[Bytes]) -> Result<Items<Bytes>, Unanswered> {
    let mut list = Items::new(alloc);
    for field in fields {
        list.push(field.try_clone(alloc)?)?;
    }
    Ok(list)
}

/// The term that a field prints.
pub(crate) fn printed_term(alloc: Global, field: &Bytes) -> Result<Term, Unanswered> {
    read_term(alloc, field.as_slice())?.ok_or(Unanswered::NoCase)
}

/// The triple whose terms three fields print.
pub(crate) fn triple(alloc: Global, fields: &[Bytes]) -> Result<Triple, Unanswered> {
    let [subject, predicate, object] = fields else {
        return Err(Unanswered::NoCase);
    };
    Ok(Triple {
        subject: printed_term(alloc, subject)?,
        predicate: printed_term(alloc, predicate)?,
        object: printed_term(alloc, object)?,
    })
}
