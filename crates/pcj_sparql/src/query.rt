ghost use Rattle.std.specs.Prelude.{◌≡◌, true, Some, None, IfOk, OnOk, IfErr, is_some};
ghost use Rattle.pcj_grammar.specs.Text.{IsOfGrammar};
ghost use Rattle.pcj_sparql.specs.Clauses.{parts_in, HasFault, IsFaultOf, Means, Fails};
ghost use Rattle.pcj_sparql.specs.Query.{shape_of};

use crate::clauses::{Clauses, clauses_of};
use crate::error::QueryRefusal;
use crate::head::head_of;
use crate::prefixes::prefixes_of;
use pcj_algebra::{Pattern, Query, Shape};
use pcj_grammar::Lexeme;
use sqlite_items::Boxed;
use std::alloc::Global;

/// The query of a text of the grammar, by its tokens.
pub(crate) fn query_of(
    alloc: Global,
    text: &[u8],
    lexemes: &[Lexeme],
) -> Result<Query, QueryRefusal>
    requires { IsOfGrammar text.now lexemes.now }
    ensures query { IfOk result (Means text.now lexemes.now) }
    ensures refused { IfErr result (Fails text.now lexemes.now) }
{
    let head = head_of(alloc, lexemes)?;
    let prefixes = prefixes_of(alloc, text, head.declared.as_slice())?;
    let clauses = clauses_of(alloc, text, &prefixes, &head)?;
    match checked(alloc, &clauses) {
        Ok(shape) => Ok(of_shape(shape, clauses.pattern)),
        Err(refusal) => Err(refusal),
    }
}

/// What a row of the answer has, if no check fails.
fn checked(alloc: Global, clauses: &Clauses) -> Result<Shape, QueryRefusal>
    ensures shape { IfOk result (λ shape. shape ≡ shape_of (parts_in clauses.now)) }
    ensures good { OnOk result (HasFault clauses.now None) }
    ensures refused { IfErr result (IsFaultOf clauses.now) }
{
    match clauses.fault(alloc)? {
        Some(error) => Err(QueryRefusal::Refused(error)),
        None => Ok(clauses.shape(alloc)?),
    }
}

/// The query of a shape and a pattern.
fn of_shape(shape: Shape, pattern: Option<Boxed<Pattern>>) -> Query
    requires { is_some pattern ≡ true }
    ensures shape { result.shape ≡ shape }
    ensures pattern { pattern ≡ Some result.pattern }
{
    match pattern {
        Some(pattern) => Query {
            shape,
            pattern: pattern.into_inner(),
        },
        None => unreachable!(),
    }
}
