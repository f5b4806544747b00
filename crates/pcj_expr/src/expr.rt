ghost use Rattle.std.specs.Prelude.{◌≡◌, Ok, IfOk};
ghost use Rattle.pcj_expr.specs.Truth.{truth_of};

use crate::{Compare, Mapping, Operand, Truth};
use pcj_term::{Memory, TryClone};
use sqlite_items::Boxed;
use std::alloc::Global;

/// A condition of a filter (SPARQL 1.1 Query, section 17.2).
#[derive(Drop)]
pub enum Expr {
    /// `||`
    Or(Boxed<Expr>, Boxed<Expr>),
    /// `&&`
    And(Boxed<Expr>, Boxed<Expr>),
    /// `!`
    Not(Boxed<Expr>),
    /// A comparison.
    Test(Compare, Operand, Operand),
}

impl TryClone for Expr {
    fn try_clone(&self, alloc: Global) -> Result<Expr, Memory> {
        match self {
            Expr::Or(left, right) => {
                let left = boxed(alloc, left.get().try_clone(alloc))?;
                let right = boxed(alloc, right.get().try_clone(alloc))?;
                Ok(Expr::Or(left, right))
            }
            Expr::And(left, right) => {
                let left = boxed(alloc, left.get().try_clone(alloc))?;
                let right = boxed(alloc, right.get().try_clone(alloc))?;
                Ok(Expr::And(left, right))
            }
            Expr::Not(inner) => {
                let inner = boxed(alloc, inner.get().try_clone(alloc))?;
                Ok(Expr::Not(inner))
            }
            Expr::Test(compare, left, right) => Ok(Expr::Test(
                *compare,
                left.try_clone(alloc)?,
                right.try_clone(alloc)?,
            )),
        }
    }
}

/// A copy behind a box, where there is one.
fn boxed(alloc: Global, copy: Result<Expr, Memory>) -> Result<Boxed<Expr>, Memory>
    ensures { IfOk result (λ inner. copy ≡ Ok inner) }
{
    let copy = copy?;
    Ok(Boxed::new(alloc, copy)?)
}

/// What a condition says of a mapping, by the tables of SPARQL 1.1 Query, section 17.2. Takes no memory.
///
/// `Truth::Error` comes where a variable is unbound, where `=` and `!=` have two literals that differ and are neither both
/// integers nor both strings, and where `<` and its kin have anything but two integers or two strings; and from such parts
/// by the tables.
pub fn truth(expr: &Expr, mapping: &Mapping) -> Truth
    ensures { result ≡ truth_of expr.now mapping.now }
{
    match expr {
        Expr::Or(left, right) => truth(left.get(), mapping).or(truth(right.get(), mapping)),
        Expr::And(left, right) => truth(left.get(), mapping).and(truth(right.get(), mapping)),
        Expr::Not(inner) => truth(inner.get(), mapping).not(),
        Expr::Test(compare, left, right) => compare.test(left.value(mapping), right.value(mapping)),
    }
}
