use crate::parts::Parts;
use crate::show::{show_mapping, show_names, show_truth};
use pcj_algebra::{Pattern, TriplePattern, match_triple, variables};
use pcj_case_lines::{Answer, Unanswered};
use pcj_encode::{KeyRange, Order};
use pcj_expr::{Expr, Mapping};
use pcj_patterns::pattern_rows;
use pcj_term::{Memory, Triple};
use std::alloc::Global;

/// Adds what the last condition says of the mapping of all bindings.
pub(crate) fn answer_truth(parts: &mut Parts, out: &mut Answer) -> Result<(), Unanswered> {
    let condition = parts.take_condition()?;
    truth_of(parts, out, &condition)
}

fn truth_of(parts: &mut Parts, out: &mut Answer, condition: &Expr) -> Result<(), Unanswered> {
    let mapping = parts.mapping();
    show_truth(out, pcj_expr::truth(condition, &mapping))
}

/// Adds the mapping by which the last triple pattern matches the triple of the last three terms, if there is one.
pub(crate) fn answer_match(
    alloc: Global,
    parts: &mut Parts,
    out: &mut Answer,
) -> Result<(), Unanswered> {
    let triple = parts.take_triple()?;
    match_of(alloc, parts, out, &triple)
}

fn match_of(
    alloc: Global,
    parts: &mut Parts,
    out: &mut Answer,
    triple: &Triple,
) -> Result<(), Unanswered> {
    let pattern = parts.pattern()?;
    show_match(
        alloc,
        out,
        match_triple(alloc, triple_pattern(pattern)?, triple),
    )
}

fn show_match(
    alloc: Global,
    out: &mut Answer,
    found: Result<Option<Mapping>, Memory>,
) -> Result<(), Unanswered> {
    match found? {
        None => out.word("none"),
        Some(mapping) => show_mapping(alloc, out, &mapping),
    }
}

/// Adds the variables of the last pattern.
pub(crate) fn answer_variables(
    alloc: Global,
    parts: &mut Parts,
    out: &mut Answer,
) -> Result<(), Unanswered> {
    let pattern = parts.pattern()?;
    let names = variables(alloc, pattern)?;
    show_names(out, names.as_slice())
}

/// Adds the order and the range that serve the last pattern.
pub(crate) fn answer_rows(
    alloc: Global,
    parts: &mut Parts,
    out: &mut Answer,
) -> Result<(), Unanswered> {
    let pattern = parts.pattern()?;
    show_rows(out, pattern_rows(alloc, triple_pattern(pattern)?))
}

fn show_rows(out: &mut Answer, rows: Result<(Order, KeyRange), Memory>) -> Result<(), Unanswered> {
    let (order, range) = rows?;
    out.word(order_word(order))?;
    show_key(out, range.after.as_slice())?;
    show_key(out, range.end.as_slice())
}

/// Adds a key: the bytes 0 and 1, which end and escape its parts, as `|` and `^`.
fn show_key(out: &mut Answer, key: &[u8]) -> Result<(), Unanswered> {
    out.word("")?;
    for byte in key {
        out.go_on(&[key_byte(*byte)])?;
    }
    Ok(())
}

fn key_byte(byte: u8) -> u8 {
    match byte {
        0 => b'|',
        1 => b'^',
        _ => byte,
    }
}

fn order_word(order: Order) -> &'static str {
    match order {
        Order::Spo => "spo",
        Order::Pos => "pos",
        Order::Osp => "osp",
    }
}

fn triple_pattern(pattern: &Pattern) -> Result<&TriplePattern, Unanswered> {
    match pattern {
        Pattern::Triple(triple) => Ok(triple),
        _ => Err(Unanswered::NoCase),
    }
}
