ghost use Rattle.std.specs.Prelude.{◌≡◌, min, IfOk};
ghost use Rattle.pcj_translate.specs.Variables.{triple_count};
ghost use Rattle.pcj_sparql.specs.Query.{is_large_pattern};
ghost use Rattle.pcj_sparql.specs.Listing.{nodes_in};

use crate::names::pattern_names;
use pcj_algebra::Pattern;
use pcj_term::Memory;
use sqlite_items::Boxed;
use std::alloc::Global;

/// How many triple patterns a query may have.
const TRIPLE_LIMIT: usize = 16;

/// How many variables its triple patterns may have.
const VARIABLE_LIMIT: usize = 32;

/// How many nodes its tree may have, the last one among them.
const NODE_LIMIT: usize = 128;

/// Whether a pattern passes a limit.
pub(crate) fn is_large(alloc: Global, pattern: &Option<Boxed<Pattern>>) -> Result<bool, Memory>
    ensures { IfOk result (λ is. is ≡ is_large_pattern pattern.now) }
{
    match pattern {
        None => Ok(false),
        Some(found) => {
            let variables = pattern_names(alloc, pattern)?;
            let triples = triple_count(found.get()) > TRIPLE_LIMIT;
            let nodes = node_count(found.get()) >= NODE_LIMIT;
            Ok(triples | (variables.len() > VARIABLE_LIMIT) | nodes)
        }
    }
}

/// The triple patterns of a pattern: no more are counted than a number can say.
fn triple_count(pattern: &Pattern) -> usize
    ensures { result ≡ min (triple_count pattern.now) 18446744073709551615 }
{
    match pattern {
        Pattern::Triple(_) => 1,
        Pattern::Filter(_, inner) => triple_count(inner.get()),
        Pattern::Join(left, right) | Pattern::Union(left, right) => {
            triple_count(left.get()).saturating_add(triple_count(right.get()))
        }
    }
}

/// The nodes of a pattern: no more are counted than a number can say.
fn node_count(pattern: &Pattern) -> usize
    ensures { result ≡ min (nodes_in pattern.now) 18446744073709551615 }
{
    match pattern {
        Pattern::Triple(_) => 1,
        Pattern::Filter(_, inner) => node_count(inner.get()).saturating_add(1),
        Pattern::Join(left, right) | Pattern::Union(left, right) => {
            let sides = node_count(left.get()).saturating_add(node_count(right.get()));
            sides.saturating_add(1)
        }
    }
}
