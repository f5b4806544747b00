ghost use Rattle.std.specs.Prelude.{[], IfOk};
ghost use Rattle.pcj_grammar.specs.Grammar.{name, Derives};
ghost use Rattle.pcj_grammar.specs.Grammar as g;
ghost use Rattle.pcj_sparql.specs.Clauses.{IsHeadOf};

use crate::declared::Declared;
use crate::heading::Heading;
use crate::said::Said;
use pcj_grammar::Lexeme;
use pcj_term::{Items, Memory};
use std::alloc::Global;

/// What stands before the group of a query.
#[derive(Drop)]
pub(crate) struct Head<'t> {
    pub(crate) declared: Items<Declared>,
    /// The tokens behind the declarations.
    pub(crate) body: &'t [Lexeme],
    /// The word SELECT.
    pub(crate) select: Lexeme,
    /// Whether DISTINCT follows it.
    pub(crate) distinct: bool,
    pub(crate) items: Items<Said>,
    /// The tokens from the group on.
    pub(crate) group: &'t [Lexeme],
}

/// The head of a query by its tokens.
pub(crate) fn head_of<'t>(alloc: Global, lexemes: &'t [Lexeme]) -> Result<Head<'t>, Memory>
    ensures { IfOk result (λ head. (d : Derives (name g.Query) lexemes.now []) → IsHeadOf d head) }
{
    let mut declared = Items::new(alloc);
    let mut items = Items::new(alloc);
    let mut heading = Heading { rest: lexemes };
    heading.declarations(&mut declared)?;
    let body = heading.rest;
    let select = heading.token();
    let distinct = heading.distinct();
    heading.items(&mut items)?;
    heading.where_word();
    Ok(Head {
        declared,
        body,
        select,
        distinct,
        items,
        group: heading.rest,
    })
}
