ghost use Rattle.std.specs.Prelude.{◌≡◌, ◌≢◌, [], map, IfOk};
ghost use Rattle.pcj_encode.specs.Range.{range_from};
ghost use Rattle.pcj_patterns.specs.Serving.{order_letter, front_of, rows_from, rows_of};

use pcj_algebra::{Slot, TriplePattern};
use pcj_encode::{KeyRange, Order};
use pcj_key::{join_parts, prefix_end};
use pcj_term::{Bytes, Items, Memory, Term, print_term};
use std::alloc::Global;

/// The order in which the pattern's constants stand at the front, and the range of the rows, in that order, that begin with
/// them (Rya, 2012). A variable that stands twice narrows nothing. `Memory` where there is none left for the range.
pub fn pattern_rows(alloc: Global, pattern: &TriplePattern) -> Result<(Order, KeyRange), Memory>
    ensures { IfOk result (λ rows. rows ≡ rows_of pattern.now) }
{
    match (&pattern.subject, &pattern.predicate, &pattern.object) {
        (Slot::Value(s), Slot::Value(p), Slot::Value(o)) => rows(alloc, Order::Spo, &[s, p, o]),
        (Slot::Value(s), Slot::Value(p), Slot::Var(_)) => rows(alloc, Order::Spo, &[s, p]),
        (Slot::Value(s), Slot::Var(_), Slot::Value(o)) => rows(alloc, Order::Osp, &[o, s]),
        (Slot::Value(s), Slot::Var(_), Slot::Var(_)) => rows(alloc, Order::Spo, &[s]),
        (Slot::Var(_), Slot::Value(p), Slot::Value(o)) => rows(alloc, Order::Pos, &[p, o]),
        (Slot::Var(_), Slot::Value(p), Slot::Var(_)) => rows(alloc, Order::Pos, &[p]),
        (Slot::Var(_), Slot::Var(_), Slot::Value(o)) => rows(alloc, Order::Osp, &[o]),
        (Slot::Var(_), Slot::Var(_), Slot::Var(_)) => rows(alloc, Order::Spo, &[]),
    }
}

/// The rows in an order that begin with these terms.
fn rows(alloc: Global, order: Order, terms: &[&Term]) -> Result<(Order, KeyRange), Memory>
    ensures { IfOk result (λ rows. rows ≡ rows_from (order, map (λ term. term.now) terms.now)) }
{
    let front = front_of(alloc, order, terms)?;
    Ok((order, range_from(alloc, front.as_slice())?))
}

/// The order's letter and the printed terms.
fn front_of(alloc: Global, order: Order, terms: &[&Term]) -> Result<Items<Bytes>, Memory>
    ensures { IfOk result (λ front. front ≡ front_of order (map (λ term. term.now) terms.now)) }
{
    let mut front = Items::new(alloc);
    front.push(Bytes::from_slice(alloc, order_letter(order))?)?;
    for term in terms {
        front.push(print_term(alloc, term)?)?;
    }
    Ok(front)
}

/// The letter that the keys of an order's rows begin with.
fn order_letter(order: Order) -> &'static [u8]
    ensures { result.now ≡ order_letter order }
{
    match order {
        Order::Spo => b"s",
        Order::Pos => b"p",
        Order::Osp => b"o",
    }
}

/// The range of what begins with the key of these parts.
fn range_from(alloc: Global, front: &[Bytes]) -> Result<KeyRange, Memory>
    requires { front.now ≢ [] }
    ensures { IfOk result (λ range. range ≡ range_from front.now) }
{
    let prefix = join_parts(alloc, front)?;
    let end = prefix_end(alloc, prefix.as_slice())?;
    let mut after = prefix.into_vec();
    after.pop();
    Ok(KeyRange {
        after: Bytes::from_vec(after),
        end,
    })
}
