ghost use Rattle.std.specs.Prelude.{◌≡◌, ◌++◌, IfOk, OnOk};
ghost use Rattle.pcj_algebra.specs.Variables.{AreNames, slot_names, triple_names, pattern_names};

use crate::{Pattern, Slot, TriplePattern};
use pcj_term::{Bytes, Items, Memory, TryClone};
use std::alloc::Global;

/// The variables of a pattern's triple patterns, distinct and ascending by the bytes of their names. Conditions bring none
/// of their own. `Memory` where there is none left for them.
pub fn variables(alloc: Global, pattern: &Pattern) -> Result<Items<Bytes>, Memory>
    ensures { IfOk result (λ names. AreNames names (pattern_names pattern.now)) }
{
    let mut names = Vec::new(alloc);
    push_names(alloc, &mut names, pattern)?;
    Ok(Items::from_vec(distinct(names)?))
}

/// The names, each once, ascending by their bytes.
pub(crate) fn distinct(mut names: Vec<Bytes>) -> Result<Vec<Bytes>, Memory>
    ensures { IfOk result (λ distinct. AreNames distinct.items names.items) }
{
    names.sort()?;
    names.dedup();
    Ok(names)
}

fn push_names(alloc: Global, names: &mut Vec<Bytes>, pattern: &Pattern) -> Result<(), Memory>
    ensures { OnOk result (names.new.items ≡ names.old.items ++ pattern_names pattern.now) }
{
    match pattern {
        Pattern::Triple(triple) => push_triple_names(alloc, names, triple),
        Pattern::Join(left, right) => {
            push_names(alloc, names, left.get())?;
            push_names(alloc, names, right.get())
        }
        Pattern::Filter(_, inner) => push_names(alloc, names, inner.get()),
        Pattern::Union(left, right) => {
            push_names(alloc, names, left.get())?;
            push_names(alloc, names, right.get())
        }
    }
}

/// Adds the variables of a triple pattern, once for each place.
pub(crate) fn push_triple_names(
    alloc: Global,
    names: &mut Vec<Bytes>,
    pattern: &TriplePattern,
) -> Result<(), Memory>
    ensures { OnOk result (names.new.items ≡ names.old.items ++ triple_names pattern.now) }
{
    push_slot_name(alloc, names, &pattern.subject)?;
    push_slot_name(alloc, names, &pattern.predicate)?;
    push_slot_name(alloc, names, &pattern.object)
}

fn push_slot_name(alloc: Global, names: &mut Vec<Bytes>, slot: &Slot) -> Result<(), Memory>
    ensures { OnOk result (names.new.items ≡ names.old.items ++ slot_names slot.now) }
{
    if let Slot::Var(name) = slot {
        names.push(name.try_clone(alloc)?)?;
    }
    Ok(())
}
