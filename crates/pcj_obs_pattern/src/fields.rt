ghost use Rattle.std.specs.Prelude.{◌≡◌, Some, IfOk, IsSome};
ghost use Rattle.std.specs.Option.{option_copied};
ghost use Rattle.pcj_term.specs.Reading.{after, term_of};
ghost use Rattle.pcj_answers.specs.Rows.{cell};
ghost use Rattle.pcj_tree.specs.Reading.{slot_of};
ghost use Rattle.pcj_obs_pattern.specs.Rows.{cells_of};

use pcj_algebra::Slot;
use pcj_expr::Mapping;
use pcj_term::{Bytes, Items, Memory, Term, print_term, read_term};
use std::alloc::Global;

/// The slot that a part of a pattern's row writes: a variable behind a question mark, or a printed term.
pub(crate) fn slot_of(alloc: Global, part: &[u8]) -> Result<Slot, Memory>
    requires { IsSome (slot_of part.now) }
    ensures { IfOk result (λ slot. slot_of part.now ≡ Some slot) }
{
    match name_of(part) {
        Some(name) => Ok(Slot::Var(Bytes::from_slice(alloc, name)?)),
        None => Ok(Slot::Value(term_of(alloc, part)?)),
    }
}

/// The name of a variable, where a question mark stands before it.
fn name_of(part: &[u8]) -> Option<&[u8]>
    ensures { option_copied result ≡ after 63 part.now }
{
    match part {
        [b'?', name @ ..] => Some(name),
        _ => None,
    }
}

/// The valid term that the part prints.
fn term_of(alloc: Global, part: &[u8]) -> Result<Term, Memory>
    requires { IsSome (term_of part.now) }
    ensures { IfOk result (λ term. term_of part.now ≡ Some term) }
{
    match read_term(alloc, part)? {
        Some(term) => Ok(term),
        None => unreachable!(),
    }
}

/// What the mapping gives the variables of an order, printed.
pub(crate) fn cells_of(
    alloc: Global,
    order: &[Bytes],
    mapping: &Mapping,
) -> Result<Items<Bytes>, Memory>
    ensures { IfOk result (λ cells. cells ≡ cells_of order.now mapping.now) }
{
    let mut cells = Items::new(alloc);
    for name in order {
        cells.push(cell_of(alloc, mapping.get(name))?)?;
    }
    Ok(cells)
}

fn cell_of(alloc: Global, term: Option<&Term>) -> Result<Bytes, Memory>
    ensures { IfOk result (λ bytes. bytes ≡ cell (option_copied term.entry)) }
{
    match term {
        None => Ok(Bytes::new(alloc)),
        Some(term) => print_term(alloc, term),
    }
}
