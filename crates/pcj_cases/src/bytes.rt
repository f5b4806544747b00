use crate::argument::byte;
use pcj_case_lines::{Answer, Unanswered, size};
use pcj_term::{Bytes, TryClone};
use std::alloc::Global;
use std::cmp::Ordering;

/// Answers a call on a list of bytes, or on it and another one.
pub(crate) fn bytes_case(
    alloc: Global,
    out: &mut Answer,
    call: &str,
    arguments: &[Bytes],
) -> Result<(), Unanswered> {
    match arguments {
        [bytes] => one_list(alloc, out, call, bytes),
        [bytes, other] => two_lists(alloc, out, call, bytes, other),
        _ => Err(Unanswered::NoCase),
    }
}

fn one_list(alloc: Global, out: &mut Answer, call: &str, bytes: &Bytes) -> Result<(), Unanswered> {
    match call {
        "bytes_copy" => copied(alloc, out, bytes),
        "bytes_is_empty" => out.flag(bytes.is_empty()),
        "bytes_len" => out.number(bytes.len() as u64),
        "bytes_moved" => moved(alloc, out, bytes),
        _ => Err(Unanswered::NoCase),
    }
}

fn copied(alloc: Global, out: &mut Answer, bytes: &Bytes) -> Result<(), Unanswered> {
    let copy = bytes.try_clone(alloc)?;
    out.bytes(copy.as_slice())
}

/// The bytes moved into a vector and back.
fn moved(alloc: Global, out: &mut Answer, bytes: &Bytes) -> Result<(), Unanswered> {
    let vector = bytes.try_clone(alloc)?.into_vec();
    let list = Bytes::from_vec(vector);
    out.bytes(list.as_slice())
}

fn two_lists(
    alloc: Global,
    out: &mut Answer,
    call: &str,
    bytes: &Bytes,
    other: &Bytes,
) -> Result<(), Unanswered> {
    match call {
        "bytes_cmp" => out.word(order_word(bytes.cmp(other))),
        "bytes_eq" => out.flag(bytes == other),
        "bytes_extend" => extended(alloc, out, bytes, other),
        "bytes_get" => item(out, bytes, size(other)?),
        "bytes_push" => pushed(alloc, out, bytes, byte(other)?),
        _ => Err(Unanswered::NoCase),
    }
}

fn order_word(order: Ordering) -> &'static str {
    match order {
        Ordering::Less => "less",
        Ordering::Equal => "equal",
        Ordering::Greater => "greater",
    }
}

fn extended(
    alloc: Global,
    out: &mut Answer,
    bytes: &Bytes,
    more: &Bytes,
) -> Result<(), Unanswered> {
    let mut list = Bytes::from_slice(alloc, bytes.as_slice())?;
    list.extend_from_slice(more.as_slice())?;
    out.bytes(list.as_slice())
}

fn item(out: &mut Answer, bytes: &Bytes, at: usize) -> Result<(), Unanswered> {
    match bytes.get(at) {
        Some(byte) => out.number(u64::from(byte)),
        None => out.word("none"),
    }
}

fn pushed(alloc: Global, out: &mut Answer, bytes: &Bytes, byte: u8) -> Result<(), Unanswered> {
    let mut list = Bytes::from_slice(alloc, bytes.as_slice())?;
    list.push(byte)?;
    out.bytes(list.as_slice())
}
