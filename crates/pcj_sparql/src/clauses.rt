ghost use Rattle.std.specs.Prelude.{◌≡◌, List, [], Option, IfOk};
ghost use Rattle.pcj_grammar.specs.declared.lexeme.Lexeme.{Lexeme};
ghost use Rattle.pcj_grammar.specs.Grammar.{name, Derives};
ghost use Rattle.pcj_grammar.specs.Grammar as g;
ghost use Rattle.pcj_translate.specs.Group.{group_by};
ghost use Rattle.pcj_translate.specs.Grouping.{IsWithinGroup};
ghost use Rattle.pcj_translate.specs.Reading.{scope_by};
ghost use Rattle.pcj_sparql.specs.Clauses.{ReadsRest};

use crate::head::Head;
use crate::heading::Heading;
use pcj_algebra::Pattern;
use pcj_grammar::Lexeme;
use pcj_term::{Items, Memory};
use pcj_translate::{Prefixes, Reader};
use sqlite_items::Boxed;
use std::alloc::Global;

/// The clauses of a query: SELECT, WHERE and GROUP BY.
#[derive(Drop)]
pub(crate) struct Clauses<'t> {
    pub(crate) text: &'t [u8],
    pub(crate) prefixes: &'t Prefixes,
    pub(crate) head: &'t Head<'t>,
    /// That of the group, if it has any.
    pub(crate) pattern: Option<Boxed<Pattern>>,
    /// The variables of GROUP BY.
    pub(crate) keys: Items<Lexeme>,
}

/// The clauses of a query by its head, in which the tokens of the others still stand.
pub(crate) fn clauses_of<'t>(
    alloc: Global,
    text: &'t [u8],
    prefixes: &'t Prefixes,
    head: &'t Head<'t>,
) -> Result<Clauses<'t>, Memory>
    ensures text { IfOk result (λ clauses. clauses.text.now ≡ text.now) }
    ensures prefixes { IfOk result (λ clauses. clauses.prefixes.now ≡ prefixes.now) }
    ensures head { IfOk result (λ clauses. clauses.head.now ≡ head.now) }
    ensures rest { IfOk result (λ clauses. ReadsRest (scope_by text.now prefixes.now) head.now.group.now clauses.pattern clauses.keys) }
{
    let mut reader = Reader {
        text,
        prefixes,
        rest: head.group,
    };
    let pattern = boxed(alloc, reader.group(alloc, 64)?)?;
    let mut heading = Heading { rest: reader.rest };
    let keys = heading.keys(alloc)?;
    Ok(Clauses {
        text,
        prefixes,
        head,
        pattern,
        keys,
    })
}

/// The pattern in a box, which is let go in one place.
fn boxed(alloc: Global, pattern: Option<Pattern>) -> Result<Option<Boxed<Pattern>>, Memory>
    ensures { IfOk result (λ boxed. boxed ≡ pattern) }
{
    match pattern {
        None => Ok(None),
        Some(pattern) => Ok(Some(Boxed::new(alloc, pattern)?)),
    }
}
