use crate::calls::{answer_match, answer_rows, answer_truth, answer_variables};
use crate::lines::{answer_group_lines, answer_lines, answer_solutions};
use crate::parts::Parts;
use crate::show::{show_mapping, show_query, show_truth};
use pcj_algebra::{Aggregate, Query};
use pcj_case_lines::{Answer, Unanswered};
use pcj_expr::{Compare, Mapping, Truth};
use pcj_term::TryClone;
use std::alloc::Global;

/// Puts together what the words say, and adds the copy of what is whole, or what a call answers of it.
pub(crate) fn answer_words(alloc: Global, out: &mut Answer, words: &str) -> Result<(), Unanswered> {
    let mut parts = Parts::new(alloc);
    for word in words.split(' ') {
        answer_word(alloc, &mut parts, out, word)?;
    }
    Ok(())
}

fn answer_word(
    alloc: Global,
    parts: &mut Parts,
    out: &mut Answer,
    word: &str,
) -> Result<(), Unanswered> {
    match word {
        "true" => copy_truth(alloc, out, Truth::True),
        "false" => copy_truth(alloc, out, Truth::False),
        "error" => copy_truth(alloc, out, Truth::Error),
        "mapping" => end_mapping(alloc, parts, out),
        "truth" => answer_truth(parts, out),
        "match" => answer_match(alloc, parts, out),
        "variables" => answer_variables(alloc, parts, out),
        "rows" => answer_rows(alloc, parts, out),
        "solutions" => answer_solutions(alloc, parts, out),
        "lines" => answer_lines(alloc, parts, out),
        "count_lines" => answer_group_lines(alloc, parts, out, Aggregate::Count),
        "sum_lines" => answer_group_lines(alloc, parts, out, Aggregate::Sum),
        "min_lines" => answer_group_lines(alloc, parts, out, Aggregate::Min),
        "max_lines" => answer_group_lines(alloc, parts, out, Aggregate::Max),
        "distinct" => end_distinct(alloc, parts, out),
        "count" => end_group(alloc, parts, out, Aggregate::Count),
        "sum" => end_group(alloc, parts, out, Aggregate::Sum),
        "min" => end_group(alloc, parts, out, Aggregate::Min),
        "max" => end_group(alloc, parts, out, Aggregate::Max),
        _ => add_word(parts, word),
    }
}

fn add_word(parts: &mut Parts, word: &str) -> Result<(), Unanswered> {
    match word {
        "=" => parts.test(Compare::Eq),
        "!=" => parts.test(Compare::Ne),
        "<" => parts.test(Compare::Lt),
        ">" => parts.test(Compare::Gt),
        "<=" => parts.test(Compare::Le),
        ">=" => parts.test(Compare::Ge),
        "or" => parts.or(),
        "and" => parts.and(),
        "not" => parts.not(),
        "triple" => parts.triple(),
        "join" => parts.join(),
        "union" => parts.union(),
        "filter" => parts.filter(),
        "bind" => parts.bind(),
        "fact" => parts.fact(),
        _ => parts.operand(word.as_bytes()),
    }
}

fn end_distinct(alloc: Global, parts: &mut Parts, out: &mut Answer) -> Result<(), Unanswered> {
    let query = parts.distinct()?;
    copy_query(alloc, out, query.get())
}

fn end_group(
    alloc: Global,
    parts: &mut Parts,
    out: &mut Answer,
    aggregate: Aggregate,
) -> Result<(), Unanswered> {
    let query = parts.group(aggregate)?;
    copy_query(alloc, out, query.get())
}

fn end_mapping(alloc: Global, parts: &mut Parts, out: &mut Answer) -> Result<(), Unanswered> {
    let mapping = parts.mapping();
    copy_mapping(alloc, out, &mapping)
}

fn copy_query(alloc: Global, out: &mut Answer, query: &Query) -> Result<(), Unanswered> {
    let copy = query.try_clone(alloc)?;
    show_query(alloc, out, &copy)
}

fn copy_mapping(alloc: Global, out: &mut Answer, mapping: &Mapping) -> Result<(), Unanswered> {
    let copy = mapping.try_clone(alloc)?;
    show_mapping(alloc, out, &copy)
}

fn copy_truth(alloc: Global, out: &mut Answer, truth: Truth) -> Result<(), Unanswered> {
    let copy = truth.try_clone(alloc)?;
    show_truth(out, copy)
}
