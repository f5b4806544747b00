ghost use Rattle.std.specs.Prelude.{◌≡◌, IfOk};
ghost use Rattle.std.specs.Option.{option_map, option_copied};
ghost use Rattle.pcj_term.specs.Reading.{after, term_of};
ghost use Rattle.pcj_encode.specs.Reading.{node_of};
ghost use Rattle.pcj_tree.specs.Reading.{split_of, slot_of, operand_of, numbers_of};

use pcj_algebra::Slot;
use pcj_expr::Operand;
use pcj_key::split_parts;
use pcj_term::{Bytes, Items, Memory, Term, read_term};
use std::alloc::Global;

/// The parts whose key this is, if it is one.
pub(crate) fn split_of(alloc: Global, bytes: &[u8]) -> Result<Option<Items<Bytes>>, Memory>
    ensures { IfOk result (λ found. found ≡ split_of bytes.now) }
{
    split_parts(alloc, bytes)
}

/// The number of a node that the part writes.
pub(crate) fn number_of(part: &[u8]) -> Option<u16>
    ensures { result ≡ node_of part.now }
{
    match part {
        [high, low] => Some(u16::from_be_bytes([*high, *low])),
        _ => None,
    }
}

/// Two numbers and nothing else.
pub(crate) fn numbers_of(fields: &[Bytes]) -> Option<(u16, u16)>
    ensures { result ≡ numbers_of fields.now }
{
    let [first, second] = fields else {
        return None;
    };
    let left = number_of(first.as_slice())?;
    let right = number_of(second.as_slice())?;
    Some((left, right))
}

pub(crate) fn slot_of(alloc: Global, part: &[u8]) -> Result<Option<Slot>, Memory>
    ensures { IfOk result (λ found. found ≡ slot_of part.now) }
{
    match name_of(part) {
        Some(name) => Ok(Some(Slot::Var(Bytes::from_slice(alloc, name)?))),
        None => Ok(term_of(alloc, part)?.map(Slot::Value)),
    }
}

pub(crate) fn operand_of(alloc: Global, part: &[u8]) -> Result<Option<Operand>, Memory>
    ensures { IfOk result (λ found. found ≡ operand_of part.now) }
{
    match name_of(part) {
        Some(name) => Ok(Some(Operand::Var(Bytes::from_slice(alloc, name)?))),
        None => Ok(term_of(alloc, part)?.map(Operand::Value)),
    }
}

/// The name of a variable, where a question mark stands before it.
fn name_of(part: &[u8]) -> Option<&[u8]>
    ensures { option_copied result ≡ after 63 part.now }
{
    match part {
        [b'?', name @ ..] => Some(name),
        _ => None,
    }
}

/// The valid term that the part prints.
fn term_of(alloc: Global, part: &[u8]) -> Result<Option<Term>, Memory>
    ensures { IfOk result (λ term. term ≡ term_of part.now) }
{
    read_term(alloc, part)
}
