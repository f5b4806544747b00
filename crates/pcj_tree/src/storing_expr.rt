ghost use Rattle.std.specs.Prelude.{◌≡◌, [], ◌∷◌, ◌++◌, IfOk};
ghost use Rattle.pcj_key.specs.Key.{key_of};
ghost use Rattle.pcj_tree.specs.Stored.{compare_part, operand_part, stored_expr};

use crate::parts::{push_bytes, push_operand};
use pcj_expr::{Compare, Expr, Operand};
use pcj_key::join_parts;
use pcj_term::{Bytes, Items, Memory};
use std::alloc::Global;

/// The bytes that a condition is stored as: the key of its operator and of what stands on its sides.
pub(crate) fn stored_expr(alloc: Global, expr: &Expr) -> Result<Bytes, Memory>
    ensures { IfOk result (λ bytes. bytes ≡ stored_expr expr.now) }
{
    match expr {
        Expr::Or(left, right) => {
            let left = stored_expr(alloc, left.get())?;
            let right = stored_expr(alloc, right.get())?;
            stored_pair(alloc, b"|", left, right)
        }
        Expr::And(left, right) => {
            let left = stored_expr(alloc, left.get())?;
            let right = stored_expr(alloc, right.get())?;
            stored_pair(alloc, b"&", left, right)
        }
        Expr::Not(inner) => {
            let inner = stored_expr(alloc, inner.get())?;
            stored_not(alloc, inner)
        }
        Expr::Test(compare, left, right) => stored_test(alloc, *compare, left, right),
    }
}

fn stored_pair(alloc: Global, sign: &[u8], left: Bytes, right: Bytes) -> Result<Bytes, Memory>
    ensures { IfOk result (λ bytes. bytes ≡ key_of (sign.now ∷ left ∷ right ∷ [])) }
{
    let mut parts = Items::new(alloc);
    push_bytes(alloc, &mut parts, sign)?;
    parts.push(left)?;
    parts.push(right)?;
    join_parts(alloc, parts.as_slice())
}

fn stored_not(alloc: Global, inner: Bytes) -> Result<Bytes, Memory>
    ensures { IfOk result (λ bytes. bytes ≡ key_of ((33 ∷ []) ∷ inner ∷ [])) }
{
    let mut parts = Items::new(alloc);
    push_bytes(alloc, &mut parts, b"!")?;
    parts.push(inner)?;
    join_parts(alloc, parts.as_slice())
}

fn stored_test(
    alloc: Global,
    compare: Compare,
    left: &Operand,
    right: &Operand,
) -> Result<Bytes, Memory>
    ensures { IfOk result (λ bytes. bytes ≡ key_of (compare_part compare ∷ operand_part left.now ∷ operand_part right.now ∷ [])) }
{
    let mut parts = Items::new(alloc);
    push_bytes(alloc, &mut parts, compare_part(compare))?;
    push_operand(alloc, &mut parts, left)?;
    push_operand(alloc, &mut parts, right)?;
    join_parts(alloc, parts.as_slice())
}

fn compare_part(compare: Compare) -> &'static [u8]
    ensures { result.now ≡ compare_part compare }
{
    match compare {
        Compare::Eq => b"=",
        Compare::Ne => b"!=",
        Compare::Lt => b"<",
        Compare::Gt => b">",
        Compare::Le => b"<=",
        Compare::Ge => b">=",
    }
}
