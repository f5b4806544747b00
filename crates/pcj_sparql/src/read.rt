ghost use Rattle.std.specs.Prelude.{◌≡◌, IfOk, IfErr};
ghost use Rattle.pcj_sparql.specs.declared.error.QueryRefusal.TheVariants.{Refused};
ghost use Rattle.pcj_sparql.specs.Clauses.{by_grammar};
ghost use Rattle.pcj_sparql.specs.Query.{QueryText, Refuses, kind_of_fault};

use crate::error::{QueryError, QueryRefusal};
use crate::kind::QueryKind;
use crate::query::query_of;
use pcj_algebra::Query;
use pcj_grammar::{FaultKind, Refusal, read_grammar};
use std::alloc::Global;

/// How long a query's text may be, in bytes.
const TEXT_LIMIT: usize = 65_536;

/// The query of a text of the profile of SPARQL 1.1 (SPARQL 1.1 Query, sections 4, 18.2 and 19).
///
/// A text over 65,536 bytes is refused at that place; then one that isn't UTF-8, at the first byte of its first ill-formed
/// sequence; then one that isn't of the grammar, at the first token that no text of it has there. Of a text of the grammar the
/// first check that fails refuses, at its lowest place. `Memory` can come before any of these.
pub fn read_query(alloc: Global, text: &[u8]) -> Result<Query, QueryRefusal>
    ensures query { IfOk result (QueryText text.now) }
    ensures refused { IfErr result (Refuses text.now) }
{
    if text.len() > TEXT_LIMIT {
        return Err(refused(TEXT_LIMIT, QueryKind::TooLarge));
    }
    if let Err(error) = str::from_utf8(text) {
        return Err(refused(error.valid_up_to(), QueryKind::Syntax));
    }
    match read_grammar(alloc, text) {
        Ok(lexemes) => query_of(alloc, text, lexemes.as_slice()),
        Err(refusal) => Err(by_grammar(refusal)),
    }
}

fn refused(at: usize, kind: QueryKind) -> QueryRefusal
    ensures { result ≡ Refused (record { at = at; kind = kind }) }
{
    QueryRefusal::Refused(QueryError {
        at: at as u64,
        kind,
    })
}

/// What is refused for its grammar.
fn by_grammar(refusal: Refusal) -> QueryRefusal
    ensures { result ≡ by_grammar refusal }
{
    match refusal {
        Refusal::Refused(fault) => refused(fault.at, kind_of(fault.kind)),
        Refusal::Memory => QueryRefusal::Memory,
    }
}

fn kind_of(kind: FaultKind) -> QueryKind
    ensures { result ≡ kind_of_fault kind }
{
    match kind {
        FaultKind::Syntax => QueryKind::Syntax,
        FaultKind::OutOfProfile => QueryKind::OutOfProfile,
        FaultKind::TooDeep => QueryKind::TooLarge,
    }
}
