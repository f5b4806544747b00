ghost use Rattle.std.specs.Prelude.{◌≡◌, IfOk};
ghost use Rattle.std.specs.Option.{option_map};
ghost use Rattle.pcj_term.specs.Reading.{term_of};
ghost use Rattle.pcj_encode.specs.Reading.{registration_of, node_of, is_cell, cells_of, registration_first, node_first, numbers_first, registered_cells, node_cells, terms_of, in_order, triple_of};

use crate::Order;
use pcj_term::{Bytes, Items, Memory, Term, Triple, TryClone, read_term};
use std::alloc::Global;

/// The number of a registration that the part writes.
fn registration_of(part: &[u8]) -> Option<u64>
    ensures { result ≡ registration_of part.now }
{
    match part {
        [a, b, c, d, e, f, g, h] => Some(u64::from_be_bytes([*a, *b, *c, *d, *e, *f, *g, *h])),
        _ => None,
    }
}

/// The number of a node that the part writes.
fn node_of(part: &[u8]) -> Option<u16>
    ensures { result ≡ node_of part.now }
{
    match part {
        [high, low] => Some(u16::from_be_bytes([*high, *low])),
        _ => None,
    }
}

/// The valid term that the part prints.
fn term_of(alloc: Global, part: &[u8]) -> Result<Option<Term>, Memory>
    ensures { IfOk result (λ term. term ≡ term_of part.now) }
{
    read_term(alloc, part)
}

fn is_cell(alloc: Global, part: &[u8]) -> Result<bool, Memory>
    ensures { IfOk result (λ found. found ≡ is_cell part.now) }
{
    Ok(term_of(alloc, part)?.is_some())
}

/// The parts, where each is a cell.
fn cells_of(alloc: Global, parts: &[Bytes]) -> Result<Option<Items<Bytes>>, Memory>
    ensures { IfOk result (λ found. found ≡ cells_of parts.now) }
{
    let mut cells = Vec::with_capacity(alloc, parts.len())?;
    for part in parts {
        if !is_cell(alloc, part.as_slice())? {
            return Ok(None);
        }
        cells.push(part.try_clone(alloc)?)?;
    }
    Ok(Some(Items::from_vec(cells)))
}

/// A registration's number, and the parts after it.
pub(crate) fn registration_first(parts: &[Bytes]) -> Option<(u64, &[Bytes])>
    ensures { option_map (λ found. (found.0, found.1.now)) result ≡ registration_first parts.now }
{
    match parts {
        [part, rest @ ..] => Some((registration_of(part.as_slice())?, rest)),
        [] => None,
    }
}

fn node_first(parts: &[Bytes]) -> Option<(u16, &[Bytes])>
    ensures { option_map (λ found. (found.0, found.1.now)) result ≡ node_first parts.now }
{
    match parts {
        [part, rest @ ..] => Some((node_of(part.as_slice())?, rest)),
        [] => None,
    }
}

/// The numbers of a registration and a node, and the parts after them.
pub(crate) fn numbers_first(parts: &[Bytes]) -> Option<(u64, u16, &[Bytes])>
    ensures { option_map (λ found. (found.0, found.1, found.2.now)) result ≡ numbers_first parts.now }
{
    let (registration, parts) = registration_first(parts)?;
    let (node, parts) = node_first(parts)?;
    Some((registration, node, parts))
}

/// The number of a registration, and cells.
pub(crate) fn registered_cells(
    alloc: Global,
    parts: &[Bytes],
) -> Result<Option<(u64, Items<Bytes>)>, Memory>
    ensures { IfOk result (λ found. found ≡ registered_cells parts.now) }
{
    let Some((registration, parts)) = registration_first(parts) else {
        return Ok(None);
    };
    match cells_of(alloc, parts)? {
        Some(cells) => Ok(Some((registration, cells))),
        None => Ok(None),
    }
}

/// The numbers of a registration and a node, and cells.
pub(crate) fn node_cells(
    alloc: Global,
    parts: &[Bytes],
) -> Result<Option<(u64, u16, Items<Bytes>)>, Memory>
    ensures { IfOk result (λ found. found ≡ node_cells parts.now) }
{
    let Some((registration, node, parts)) = numbers_first(parts) else {
        return Ok(None);
    };
    match cells_of(alloc, parts)? {
        Some(cells) => Ok(Some((registration, node, cells))),
        None => Ok(None),
    }
}

fn terms_of(alloc: Global, parts: &[Bytes]) -> Result<Option<(Term, Term, Term)>, Memory>
    ensures { IfOk result (λ found. found ≡ terms_of parts.now) }
{
    let [first, second, third] = parts else {
        return Ok(None);
    };
    let Some(first) = term_of(alloc, first.as_slice())? else {
        return Ok(None);
    };
    let Some(second) = term_of(alloc, second.as_slice())? else {
        return Ok(None);
    };
    let Some(third) = term_of(alloc, third.as_slice())? else {
        return Ok(None);
    };
    Ok(Some((first, second, third)))
}

/// The triple whose terms the parts print, in this order.
pub(crate) fn triple_of(
    alloc: Global,
    order: Order,
    parts: &[Bytes],
) -> Result<Option<Triple>, Memory>
    ensures { IfOk result (λ found. found ≡ triple_of order parts.now) }
{
    match terms_of(alloc, parts)? {
        Some((first, second, third)) => Ok(Some(in_order(order, first, second, third))),
        None => Ok(None),
    }
}

fn in_order(order: Order, first: Term, second: Term, third: Term) -> Triple
    ensures { result ≡ in_order order first second third }
{
    match order {
        Order::Spo => Triple {
            subject: first,
            predicate: second,
            object: third,
        },
        Order::Pos => Triple {
            subject: third,
            predicate: first,
            object: second,
        },
        Order::Osp => Triple {
            subject: second,
            predicate: third,
            object: first,
        },
    }
}
