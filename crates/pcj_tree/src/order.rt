ghost use Rattle.std.specs.Prelude.{◌≡◌, ◌++◌, true, false, IfOk, OnOk};
ghost use Rattle.std.specs.Option.{option_copied};
ghost use Rattle.pcj_algebra.specs.Variables.{AreNames};
ghost use Rattle.pcj_tree.specs.Order.{has_name, chosen};
ghost use Rattle.pcj_tree.specs.Tree.{HasOrder, other_names};

use pcj_algebra::{Pattern, variables};
use pcj_term::{Bytes, Items, Memory, TryClone};
use std::alloc::Global;

/// The variables of a part: those that a join's other child has too, ascending, and behind them the others, ascending.
pub(crate) fn order_of(
    alloc: Global,
    part: &Pattern,
    sibling: Option<&Pattern>,
) -> Result<Items<Bytes>, Memory>
    ensures { IfOk result (λ order. HasOrder part.now (option_copied sibling.entry) order) }
{
    let others = other_names(alloc, sibling)?;
    let names = variables(alloc, part)?;
    ordered(alloc, names.as_slice(), others.as_slice())
}

/// The variables of a join's other child, where there is one.
fn other_names(alloc: Global, sibling: Option<&Pattern>) -> Result<Items<Bytes>, Memory>
    ensures { IfOk result (λ names. AreNames names (other_names (option_copied sibling.entry))) }
{
    match sibling {
        None => Ok(Items::new(alloc)),
        Some(other) => variables(alloc, other),
    }
}

fn ordered(alloc: Global, names: &[Bytes], sibling: &[Bytes]) -> Result<Items<Bytes>, Memory>
    ensures { IfOk result (λ order. order ≡ chosen true sibling.now names.now ++ chosen false sibling.now names.now) }
{
    let mut order = Items::new(alloc);
    push_chosen(alloc, &mut order, true, sibling, names)?;
    push_chosen(alloc, &mut order, false, sibling, names)?;
    Ok(order)
}

/// Adds the names that the sibling has, or those that it hasn't.
fn push_chosen(
    alloc: Global,
    order: &mut Items<Bytes>,
    is_shared: bool,
    sibling: &[Bytes],
    names: &[Bytes],
) -> Result<(), Memory>
    ensures { OnOk result (order.new ≡ order.old ++ chosen is_shared sibling.now names.now) }
{
    for name in names {
        if has_name(sibling, name) == is_shared {
            order.push(name.try_clone(alloc)?)?;
        }
    }
    Ok(())
}

fn has_name(names: &[Bytes], name: &Bytes) -> bool
    ensures { result ≡ has_name names.now name.now }
{
    names.contains(name)
}
