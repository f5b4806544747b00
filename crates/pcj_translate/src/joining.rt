ghost use Rattle.std.specs.Prelude.{◌≡◌, IfOk};
ghost use Rattle.pcj_translate.specs.Group.{joined, joined_group, joined_triples, united, both_conditions, filtered};
ghost use Rattle.pcj_algebra.specs.declared.pattern.Pattern.TheVariants.{Join, Union, Filter};

use crate::reader::and_of;
use pcj_algebra::{Pattern, TriplePattern};
use pcj_expr::Expr;
use pcj_term::{Memory, TryClone};
use sqlite_items::Boxed;
use std::alloc::Global;

fn join_of(alloc: Global, first: Pattern, next: Pattern) -> Result<Pattern, Memory>
    ensures { IfOk result (λ pattern. pattern ≡ Join first next) }
{
    Ok(Pattern::Join(Boxed::new(alloc, first)?, Boxed::new(alloc, next)?))
}

fn union_of(alloc: Global, first: Pattern, next: Pattern) -> Result<Pattern, Memory>
    ensures { IfOk result (λ pattern. pattern ≡ Union first next) }
{
    Ok(Pattern::Union(Boxed::new(alloc, first)?, Boxed::new(alloc, next)?))
}

fn filter_of(alloc: Global, condition: Expr, pattern: Pattern) -> Result<Pattern, Memory>
    ensures { IfOk result (λ filtered. filtered ≡ Filter condition pattern) }
{
    Ok(Pattern::Filter(condition, Boxed::new(alloc, pattern)?))
}

/// A pattern with another behind it.
pub(crate) fn joined(
    alloc: Global,
    first: Option<Pattern>,
    next: Pattern,
) -> Result<Option<Pattern>, Memory>
    ensures { IfOk result (λ pattern. pattern ≡ joined first next) }
{
    match first {
        None => Ok(Some(next)),
        Some(first) => Ok(Some(join_of(alloc, first, next)?)),
    }
}

/// A pattern with that of a group behind it, where the group has one.
pub(crate) fn joined_group(
    alloc: Global,
    first: Option<Pattern>,
    group: Option<Pattern>,
) -> Result<Option<Pattern>, Memory>
    ensures { IfOk result (λ pattern. pattern ≡ joined_group first group) }
{
    match group {
        None => Ok(first),
        Some(group) => joined(alloc, first, group),
    }
}

/// The pattern of either group.
pub(crate) fn united(
    alloc: Global,
    first: Option<Pattern>,
    next: Option<Pattern>,
) -> Result<Option<Pattern>, Memory>
    ensures { IfOk result (λ pattern. pattern ≡ united first next) }
{
    match (first, next) {
        (None, next) => Ok(next),
        (Some(first), None) => Ok(Some(first)),
        (Some(first), Some(next)) => Ok(Some(union_of(alloc, first, next)?)),
    }
}

/// Both conditions.
pub(crate) fn both_conditions(
    alloc: Global,
    first: Option<Expr>,
    next: Expr,
) -> Result<Option<Expr>, Memory>
    ensures { IfOk result (λ condition. condition ≡ both_conditions first next) }
{
    match first {
        None => Ok(Some(next)),
        Some(first) => Ok(Some(and_of(alloc, first, next)?)),
    }
}

/// A pattern with the condition of its group around it.
pub(crate) fn filtered(
    alloc: Global,
    condition: Option<Expr>,
    pattern: Option<Pattern>,
) -> Result<Option<Pattern>, Memory>
    ensures { IfOk result (λ found. found ≡ filtered condition pattern) }
{
    match (condition, pattern) {
        (None, pattern) => Ok(pattern),
        (Some(_), None) => Ok(None),
        (Some(condition), Some(pattern)) => Ok(Some(filter_of(alloc, condition, pattern)?)),
    }
}

/// A pattern with triple patterns behind it.
pub(crate) fn joined_triples(
    alloc: Global,
    first: Option<Pattern>,
    triples: &[TriplePattern],
) -> Result<Option<Pattern>, Memory>
    ensures { IfOk result (λ pattern. pattern ≡ joined_triples first triples.now) }
{
    let mut joint = first;
    for triple in triples {
        joint = joined(alloc, joint, Pattern::Triple(triple.try_clone(alloc)?))?;
    }
    Ok(joint)
}
