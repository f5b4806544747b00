ghost use Rattle.std.specs.List.{All};
ghost use Rattle.pcj_solutions.specs.Sets.{IsMapping};

use crate::parts::Parts;
use crate::show::show_mapping;
use pcj_algebra::{Aggregate, Pattern, Query};
use pcj_answers::lines;
use pcj_case_lines::{Answer, Unanswered};
use pcj_expr::Mapping;
use pcj_solutions::{matches_of, solutions};
use pcj_term::{Bytes, Items, Memory, Triple};
use std::alloc::Global;

/// Adds the solutions of the last pattern over the set of triples.
pub(crate) fn answer_solutions(
    alloc: Global,
    parts: &mut Parts,
    out: &mut Answer,
) -> Result<(), Unanswered> {
    let pattern = parts.pattern()?;
    show_solutions(alloc, out, solutions_of(alloc, pattern, parts.triples()))
}

fn show_solutions(
    alloc: Global,
    out: &mut Answer,
    mappings: Result<Items<Mapping>, Memory>,
) -> Result<(), Unanswered> {
    let mappings = mappings?;
    for mapping in mappings.as_slice() {
        show_mapping(alloc, out, mapping)?;
    }
    Ok(())
}

/// Adds the lines of `SELECT DISTINCT` of the names that are left, over the last pattern and the set of triples.
pub(crate) fn answer_lines(
    alloc: Global,
    parts: &mut Parts,
    out: &mut Answer,
) -> Result<(), Unanswered> {
    let query = parts.distinct()?;
    show_lines(out, lines_of(alloc, query.get(), parts.triples()))
}

/// The same of an aggregate of the last name but one.
pub(crate) fn answer_group_lines(
    alloc: Global,
    parts: &mut Parts,
    out: &mut Answer,
    aggregate: Aggregate,
) -> Result<(), Unanswered> {
    let query = parts.group(aggregate)?;
    show_lines(out, lines_of(alloc, query.get(), parts.triples()))
}

fn show_lines(out: &mut Answer, lines: Result<Items<Bytes>, Memory>) -> Result<(), Unanswered> {
    let lines = lines?;
    for line in lines.as_slice() {
        show_line(out, line.as_slice())?;
    }
    Ok(())
}

/// Adds a line, with `|` for each TAB.
fn show_line(out: &mut Answer, line: &[u8]) -> Result<(), Unanswered> {
    out.word("")?;
    for byte in line {
        out.go_on(&[if *byte == b'\t' { b'|' } else { *byte }])?;
    }
    Ok(())
}

// ---- the calls

fn solutions_of(
    alloc: Global,
    pattern: &Pattern,
    triples: &[Triple],
) -> Result<Items<Mapping>, Memory> {
    let mut matches = Items::new(alloc);
    push_matches(alloc, &mut matches, pattern, triples)?;
    solutions(alloc, pattern, matches)
}

fn lines_of(alloc: Global, query: &Query, triples: &[Triple]) -> Result<Items<Bytes>, Memory> {
    let mut matches = Items::new(alloc);
    push_matches(alloc, &mut matches, &query.pattern, triples)?;
    lines(alloc, query, matches)
}

/// Adds the matches of each triple pattern, in the order of the text.
fn push_matches(
    alloc: Global,
    matches: &mut Items<Items<Mapping>>,
    pattern: &Pattern,
    triples: &[Triple],
) -> Result<(), Memory>
    requires { All (All IsMapping) matches.old }
    ensures { All (All IsMapping) matches.new }
{
    match pattern {
        Pattern::Triple(triple) => matches.push(matches_of(alloc, triple, triples)?),
        Pattern::Filter(_, inner) => push_matches(alloc, matches, inner.get(), triples),
        Pattern::Join(left, right) | Pattern::Union(left, right) => {
            push_matches(alloc, matches, left.get(), triples)?;
            push_matches(alloc, matches, right.get(), triples)
        }
    }
}
