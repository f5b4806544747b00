use crate::small::small;
use pcj_case_lines::{Answer, Unanswered, number, size};
use pcj_lines::{
    push_committed, push_loaded, push_no_query, push_refused, push_refused_line, push_registered,
    push_row, push_rows, push_spent, push_taken, push_usage,
};
use pcj_term::{Bytes, TryClone};
use std::alloc::Global;

/// Answers the call of a line of a transcript: what stands, which is the first field, with the line behind it.
pub(crate) fn line_case(
    alloc: Global,
    out: &mut Answer,
    call: &str,
    arguments: &[Bytes],
) -> Result<(), Unanswered> {
    let [front, arguments @ ..] = arguments else {
        return Err(Unanswered::NoCase);
    };
    let mut text = front.try_clone(alloc)?;
    push_line(alloc, &mut text, call, arguments)?;
    out.bytes(text.as_slice())
}

fn push_line(
    alloc: Global,
    text: &mut Bytes,
    call: &str,
    arguments: &[Bytes],
) -> Result<(), Unanswered> {
    match arguments {
        [] => ending(text, call),
        [one] => one_text(alloc, text, call, one),
        [client, commit] if call == "push_committed" => {
            push_committed(alloc, text, small(client)?, number(commit)?)?;
            Ok(())
        }
        [client, second, third] => {
            three_fields(alloc, text, call, small(client)?, number(second)?, third)
        }
        _ => Err(Unanswered::NoCase),
    }
}

fn ending(text: &mut Bytes, call: &str) -> Result<(), Unanswered> {
    let added = match call {
        "push_spent" => push_spent(text),
        "push_usage" => push_usage(text),
        _ => return Err(Unanswered::NoCase),
    };
    Ok(added?)
}

fn one_text(alloc: Global, text: &mut Bytes, call: &str, field: &Bytes) -> Result<(), Unanswered> {
    let added = match call {
        "push_no_query" => push_no_query(text, field),
        "push_row" => push_row(text, field),
        _ => return one_number(alloc, text, call, field),
    };
    Ok(added?)
}

fn one_number(
    alloc: Global,
    text: &mut Bytes,
    call: &str,
    field: &Bytes,
) -> Result<(), Unanswered> {
    let added = match call {
        "push_refused_line" => push_refused_line(alloc, text, number(field)?),
        "push_rows" => push_rows(alloc, text, size(field)?),
        "push_taken" => push_taken(alloc, text, small(field)?),
        _ => return Err(Unanswered::NoCase),
    };
    Ok(added?)
}

fn three_fields(
    alloc: Global,
    text: &mut Bytes,
    call: &str,
    client: u8,
    second: u64,
    third: &Bytes,
) -> Result<(), Unanswered> {
    let added = match call {
        "push_loaded" => push_loaded(alloc, text, client, second, size(third)?),
        "push_refused" => push_refused(alloc, text, client, second, small(third)?),
        "push_registered" => push_registered(alloc, text, client, second, third),
        _ => return Err(Unanswered::NoCase),
    };
    Ok(added?)
}
