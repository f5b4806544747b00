ghost use Rattle.std.specs.Prelude.{◌≡◌, codes, Ok, IfOk};
ghost use Rattle.pcj_term.specs.Order.{same_bytes};
ghost use Rattle.pcj_tree.specs.Reading.{compare_of, test_of, pair_of, both, expr_of};

use crate::fields::{operand_of, split_of};
use pcj_expr::{Compare, Expr};
use pcj_term::Memory;
use sqlite_items::Boxed;
use std::alloc::Global;

/// The condition that the bytes are stored for, where it has so many levels at most.
#[tactic(auto, unfolding(crate::specs::Reading::expr_of))]
pub(crate) fn expr_of(alloc: Global, levels: u32, bytes: &[u8]) -> Result<Option<Expr>, Memory>
    ensures { IfOk result (λ found. found ≡ expr_of levels bytes.now) }
{
    if levels == 0 {
        return Ok(None);
    }
    let Some(parts) = split_of(alloc, bytes)? else {
        return Ok(None);
    };
    match parts.as_slice() {
        [sign, side] if is_not(sign.as_slice()) => {
            let side = boxed(alloc, expr_of(alloc, levels - 1, side.as_slice()))?;
            Ok(side.map(Expr::Not))
        }
        [sign, left, right] => match pair_of(sign.as_slice()) {
            Some(is_or) => {
                let left = boxed(alloc, expr_of(alloc, levels - 1, left.as_slice()))?;
                let right = boxed(alloc, expr_of(alloc, levels - 1, right.as_slice()))?;
                Ok(both(is_or, left, right))
            }
            None => test_of(alloc, sign.as_slice(), left.as_slice(), right.as_slice()),
        },
        _ => Ok(None),
    }
}

/// A condition behind a box, where there is one.
fn boxed(alloc: Global, read: Result<Option<Expr>, Memory>) -> Result<Option<Boxed<Expr>>, Memory>
    ensures { IfOk result (λ inner. read ≡ Ok inner) }
{
    match read? {
        Some(expr) => Ok(Some(Boxed::new(alloc, expr)?)),
        None => Ok(None),
    }
}

fn both(is_or: bool, left: Option<Boxed<Expr>>, right: Option<Boxed<Expr>>) -> Option<Expr>
    ensures { result ≡ both is_or left right }
{
    let left = left?;
    let right = right?;
    if is_or {
        Some(Expr::Or(left, right))
    } else {
        Some(Expr::And(left, right))
    }
}

fn is_not(sign: &[u8]) -> bool
    ensures { result ≡ same_bytes sign.now (codes "!") }
{
    sign == b"!".as_slice()
}

/// Whether an operator is that of an or or an and.
fn pair_of(sign: &[u8]) -> Option<bool>
    ensures { result ≡ pair_of sign.now }
{
    if sign == b"|".as_slice() {
        Some(true)
    } else if sign == b"&".as_slice() {
        Some(false)
    } else {
        None
    }
}

fn test_of(alloc: Global, sign: &[u8], left: &[u8], right: &[u8]) -> Result<Option<Expr>, Memory>
    ensures { IfOk result (λ found. found ≡ test_of sign.now left.now right.now) }
{
    let Some(compare) = compare_of(sign) else {
        return Ok(None);
    };
    let Some(left) = operand_of(alloc, left)? else {
        return Ok(None);
    };
    match operand_of(alloc, right)? {
        Some(right) => Ok(Some(Expr::Test(compare, left, right))),
        None => Ok(None),
    }
}

fn compare_of(sign: &[u8]) -> Option<Compare>
    ensures { result ≡ compare_of sign.now }
{
    if sign == b"=".as_slice() {
        Some(Compare::Eq)
    } else if sign == b"!=".as_slice() {
        Some(Compare::Ne)
    } else if sign == b"<".as_slice() {
        Some(Compare::Lt)
    } else if sign == b">".as_slice() {
        Some(Compare::Gt)
    } else if sign == b"<=".as_slice() {
        Some(Compare::Le)
    } else if sign == b">=".as_slice() {
        Some(Compare::Ge)
    } else {
        None
    }
}
