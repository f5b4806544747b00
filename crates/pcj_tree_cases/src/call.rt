use crate::show::show_tree;
use pcj_algebra::Query;
use pcj_case_lines::{Answer, Unanswered};
use pcj_sparql::{QueryRefusal, read_query};
use pcj_term::{Bytes, Memory};
use pcj_tree::{Tree, build, can_build, read_tree, store_tree};
use std::alloc::Global;

/// Makes the call that the word names, and adds its answer.
pub(crate) fn answer(
    alloc: Global,
    out: &mut Answer,
    call: &str,
    argument: &[u8],
) -> Result<(), Unanswered> {
    match call {
        "tree" => query_case(alloc, out, read_query(alloc, argument), true),
        "store_tree" => query_case(alloc, out, read_query(alloc, argument), false),
        "read_tree" => show_read(out, read_tree(alloc, argument)),
        _ => Err(Unanswered::NoCase),
    }
}

/// The tree of a query as it is read from its stored form, or that form.
fn query_case(
    alloc: Global,
    out: &mut Answer,
    query: Result<Query, QueryRefusal>,
    is_read: bool,
) -> Result<(), Unanswered> {
    match query {
        Ok(query) if can_build(&query) => tree_case(alloc, out, build(alloc, &query), is_read),
        Err(QueryRefusal::Memory) => Err(Unanswered::Memory),
        _ => Err(Unanswered::NoCase),
    }
}

fn tree_case(
    alloc: Global,
    out: &mut Answer,
    tree: Result<Tree, Memory>,
    is_read: bool,
) -> Result<(), Unanswered> {
    match tree {
        Ok(tree) => stored_case(alloc, out, store_tree(alloc, &tree), is_read),
        Err(Memory) => Err(Unanswered::Memory),
    }
}

fn stored_case(
    alloc: Global,
    out: &mut Answer,
    stored: Result<Bytes, Memory>,
    is_read: bool,
) -> Result<(), Unanswered> {
    match stored {
        Ok(stored) if is_read => show_read(out, read_tree(alloc, stored.as_slice())),
        Ok(stored) => out.bytes(stored.as_slice()),
        Err(Memory) => Err(Unanswered::Memory),
    }
}

fn show_read(out: &mut Answer, found: Result<Option<Tree>, Memory>) -> Result<(), Unanswered> {
    match found {
        Ok(Some(tree)) => show_tree(out, &tree),
        Ok(None) => out.word("none"),
        Err(Memory) => Err(Unanswered::Memory),
    }
}
