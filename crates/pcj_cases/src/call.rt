use crate::{act, bytes, items, key, name, range, row, task, term, text};
use pcj_case_lines::{Answer, Unanswered};
use pcj_term::Bytes;
use std::alloc::Global;

/// Makes the call that the word names, and adds its answer.
pub(crate) fn answer(
    alloc: Global,
    out: &mut Answer,
    call: &str,
    arguments: &[Bytes],
) -> Result<(), Unanswered> {
    match call.split_once('_') {
        Some(("is", _)) => text::class_case(out, call, arguments),
        Some(("bytes", _)) => bytes::bytes_case(alloc, out, call, arguments),
        Some(("items", _)) => items::items_case(alloc, out, call, arguments),
        Some(("copy", _)) => copying(alloc, out, call, arguments),
        Some(("read", _)) => reading(alloc, out, call, arguments),
        Some((_, "range")) => range::range_case(alloc, out, call, arguments),
        Some((_, "at")) => row::read_case(alloc, out, call, arguments),
        _ => making(alloc, out, call, arguments),
    }
}

fn copying(
    alloc: Global,
    out: &mut Answer,
    call: &str,
    arguments: &[Bytes],
) -> Result<(), Unanswered> {
    match call {
        "copy_memory" => items::copy_memory_case(alloc, out, arguments),
        "copy_name" => name::name_case(alloc, out, call, arguments),
        "copy_option" => items::copy_option_case(alloc, out, arguments),
        "copy_order" => name::copy_order_case(alloc, out, arguments),
        "copy_prewrite" => act::copy_prewrite_case(alloc, out, arguments),
        "copy_range" => range::copy_case(alloc, out, arguments),
        "copy_term" => term::term_case(alloc, out, call, arguments),
        "copy_triple" => term::triple_case(alloc, out, call, arguments),
        _ => Err(Unanswered::NoCase),
    }
}

fn reading(
    alloc: Global,
    out: &mut Answer,
    call: &str,
    arguments: &[Bytes],
) -> Result<(), Unanswered> {
    match call {
        "read_key" => name::read_case(alloc, out, arguments),
        "read_task" => task::read_case(alloc, out, arguments),
        "read_term" => term::read_case(alloc, out, arguments),
        _ => Err(Unanswered::NoCase),
    }
}

fn making(
    alloc: Global,
    out: &mut Answer,
    call: &str,
    arguments: &[Bytes],
) -> Result<(), Unanswered> {
    match call {
        "commit_of" => row::read_case(alloc, out, call, arguments),
        "commit_row" => act::commit_case(alloc, out, arguments),
        "integer_of" | "print_term" => term::term_case(alloc, out, call, arguments),
        "join_parts" => key::join_case(alloc, out, arguments),
        "prefix_end" => key::prefix_case(alloc, out, arguments),
        "push_term" => term::push_case(alloc, out, arguments),
        "prewrite" => act::prewrite_case(alloc, out, arguments),
        "roll_back_row" => act::roll_back_case(alloc, out, arguments),
        "roll_forward_row" => act::roll_forward_case(alloc, out, arguments),
        "split_parts" => key::split_case(alloc, out, arguments),
        "triple_key" => name::triple_key_case(alloc, out, arguments),
        "triple_rows" => term::triple_case(alloc, out, call, arguments),
        "write_key" => name::name_case(alloc, out, call, arguments),
        _ => Err(Unanswered::NoCase),
    }
}
