ghost use Rattle.std.specs.Prelude.{◌≡◌, Ok, IfOk};

use crate::triple_pattern::TriplePattern;
use pcj_expr::Expr;
use pcj_term::{Memory, TryClone};
use sqlite_items::Boxed;
use std::alloc::Global;

/// A graph pattern (SPARQL 1.1 Query, sections 5 and 18.2).
#[derive(Drop)]
pub enum Pattern {
    /// A triple pattern.
    Triple(TriplePattern),
    /// Solutions of both sides, where they are compatible.
    Join(Boxed<Pattern>, Boxed<Pattern>),
    /// The solutions for which the condition is true.
    Filter(Expr, Boxed<Pattern>),
    /// The solutions of either side.
    Union(Boxed<Pattern>, Boxed<Pattern>),
}

impl TryClone for Pattern {
    fn try_clone(&self, alloc: Global) -> Result<Pattern, Memory> {
        match self {
            Pattern::Triple(triple) => Ok(Pattern::Triple(triple.try_clone(alloc)?)),
            Pattern::Join(left, right) => {
                let left = boxed(alloc, left.get().try_clone(alloc))?;
                let right = boxed(alloc, right.get().try_clone(alloc))?;
                Ok(Pattern::Join(left, right))
            }
            Pattern::Filter(condition, inner) => {
                let inner = boxed(alloc, inner.get().try_clone(alloc))?;
                Ok(Pattern::Filter(condition.try_clone(alloc)?, inner))
            }
            Pattern::Union(left, right) => {
                let left = boxed(alloc, left.get().try_clone(alloc))?;
                let right = boxed(alloc, right.get().try_clone(alloc))?;
                Ok(Pattern::Union(left, right))
            }
        }
    }
}

/// A copy behind a box, where there is one.
fn boxed(alloc: Global, copy: Result<Pattern, Memory>) -> Result<Boxed<Pattern>, Memory>
    ensures { IfOk result (λ inner. copy ≡ Ok inner) }
{
    let copy = copy?;
    Ok(Boxed::new(alloc, copy)?)
}
