use crate::{document, grammar, query, said, script, token, transcript};
use pcj_case_lines::{Answer, Unanswered};
use pcj_term::Bytes;
use std::alloc::Global;

/// Makes the call that the word names, and adds its answer.
pub(crate) fn answer(
    alloc: Global,
    out: &mut Answer,
    call: &str,
    arguments: &[Bytes],
) -> Result<(), Unanswered> {
    match call.split_once('_') {
        Some(("push", _)) => pushing(alloc, out, call, arguments),
        Some(("read", _)) => reading(alloc, out, call, arguments),
        _ => other(alloc, out, call, arguments),
    }
}

fn pushing(
    alloc: Global,
    out: &mut Answer,
    call: &str,
    arguments: &[Bytes],
) -> Result<(), Unanswered> {
    match call {
        "push_said" | "push_twice" => said::said_case(alloc, out, call, arguments),
        _ => transcript::line_case(alloc, out, call, arguments),
    }
}

fn reading(
    alloc: Global,
    out: &mut Answer,
    call: &str,
    arguments: &[Bytes],
) -> Result<(), Unanswered> {
    match call {
        "read_document" => document::read_case(alloc, out, arguments),
        "read_grammar" => grammar::read_case(alloc, out, arguments),
        "read_long" => document::read_long_case(alloc, out, arguments),
        "read_many" => document::read_many_case(alloc, out, arguments),
        "read_padded" => query::padded_case(alloc, out, arguments),
        "read_query" => query::read_case(alloc, out, arguments),
        _ => Err(Unanswered::NoCase),
    }
}

fn other(
    alloc: Global,
    out: &mut Answer,
    call: &str,
    arguments: &[Bytes],
) -> Result<(), Unanswered> {
    match call {
        "copy_refusal" => document::copy_refusal_case(alloc, out, arguments),
        "next_command" => script::next_case(out, arguments),
        "next_long" => script::long_case(alloc, out, arguments),
        "next_token" => token::next_case(out, arguments),
        "nt_number" => document::number_case(out, arguments),
        "query_number" => query::number_case(out, arguments),
        "script" => script::script_case(out, arguments),
        _ => Err(Unanswered::NoCase),
    }
}
