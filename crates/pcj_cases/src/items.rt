use pcj_case_lines::{Answer, Unanswered, number, size};
use pcj_term::{Bytes, Items, Memory, TryClone};
use std::alloc::Global;

/// Answers a call on a list of numbers.
pub(crate) fn items_case(
    alloc: Global,
    out: &mut Answer,
    call: &str,
    arguments: &[Bytes],
) -> Result<(), Unanswered> {
    match (call, arguments) {
        ("items_get", [at, rest @ ..]) => item(alloc, out, size(at)?, rest),
        ("items_insert", [at, item, rest @ ..]) => {
            inserted(alloc, out, size(at)?, number(item)?, rest)
        }
        _ => pushed(alloc, out, call, arguments),
    }
}

/// The list of the numbers that fields write.
fn numbers(alloc: Global, fields: &[Bytes]) -> Result<Items<u64>, Unanswered> {
    let mut list = Items::new(alloc);
    for field in fields {
        list.push(number(field)?)?;
    }
    Ok(list)
}

fn show(out: &mut Answer, numbers: &[u64]) -> Result<(), Unanswered> {
    out.word("items")?;
    for number in numbers {
        out.number(*number)?;
    }
    Ok(())
}

fn pushed(alloc: Global, out: &mut Answer, call: &str, fields: &[Bytes]) -> Result<(), Unanswered> {
    let list = numbers(alloc, fields)?;
    answer_of(alloc, out, call, &list)
}

fn answer_of(
    alloc: Global,
    out: &mut Answer,
    call: &str,
    list: &Items<u64>,
) -> Result<(), Unanswered> {
    match call {
        "items_copy" => copied(alloc, out, list),
        "items_is_empty" => out.flag(list.is_empty()),
        "items_len" => out.number(list.len() as u64),
        "items_moved" => moved(alloc, out, list),
        "items_push" => show(out, list.as_slice()),
        _ => Err(Unanswered::NoCase),
    }
}

fn copied(alloc: Global, out: &mut Answer, list: &Items<u64>) -> Result<(), Unanswered> {
    let copy = list.try_clone(alloc)?;
    show(out, copy.as_slice())
}

/// The numbers moved into a vector and back.
fn moved(alloc: Global, out: &mut Answer, list: &Items<u64>) -> Result<(), Unanswered> {
    let vector = list.try_clone(alloc)?.into_vec();
    let list = Items::from_vec(vector);
    show(out, list.as_slice())
}

fn item(alloc: Global, out: &mut Answer, at: usize, fields: &[Bytes]) -> Result<(), Unanswered> {
    let list = numbers(alloc, fields)?;
    show_number(out, list.get(at).copied())
}

fn show_number(out: &mut Answer, number: Option<u64>) -> Result<(), Unanswered> {
    match number {
        Some(number) => out.number(number),
        None => out.word("none"),
    }
}

fn inserted(
    alloc: Global,
    out: &mut Answer,
    at: usize,
    item: u64,
    fields: &[Bytes],
) -> Result<(), Unanswered> {
    let mut list = numbers(alloc, fields)?;
    insert(&mut list, at, item)?;
    show(out, list.as_slice())
}

fn insert(list: &mut Items<u64>, at: usize, item: u64) -> Result<(), Unanswered> {
    if at > list.len() {
        return Err(Unanswered::NoCase);
    }
    list.insert(at, item)?;
    Ok(())
}

/// `copy_option`, with a number or without one: the copy.
pub(crate) fn copy_option_case(
    alloc: Global,
    out: &mut Answer,
    arguments: &[Bytes],
) -> Result<(), Unanswered> {
    let option = match arguments {
        [] => None,
        [field] => Some(number(field)?),
        _ => return Err(Unanswered::NoCase),
    };
    show_number(out, option.try_clone(alloc)?)
}

/// `copy_memory`: whether the copy of the error equals it.
pub(crate) fn copy_memory_case(
    alloc: Global,
    out: &mut Answer,
    arguments: &[Bytes],
) -> Result<(), Unanswered> {
    match arguments {
        [] => out.flag(Memory.try_clone(alloc)? == Memory),
        _ => Err(Unanswered::NoCase),
    }
}
