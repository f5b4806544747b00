ghost use Rattle.std.specs.Prelude.{◌≡◌, [], ◌∷◌, ◌++◌, OnOk};
ghost use Rattle.pcj_encode.specs.Name.{node_part};
ghost use Rattle.pcj_tree.specs.Stored.{slot_part, operand_part};

use pcj_algebra::Slot;
use pcj_expr::Operand;
use pcj_term::{Bytes, Items, Memory, print_term};
use std::alloc::Global;

pub(crate) fn push_bytes(
    alloc: Global,
    parts: &mut Items<Bytes>,
    bytes: &[u8],
) -> Result<(), Memory>
    ensures { OnOk result (parts.new ≡ parts.old ++ bytes.now ∷ []) }
{
    parts.push(Bytes::from_slice(alloc, bytes)?)
}

/// Adds a node's number, the high byte first.
pub(crate) fn push_number(
    alloc: Global,
    parts: &mut Items<Bytes>,
    number: u16,
) -> Result<(), Memory>
    ensures { OnOk result (parts.new ≡ parts.old ++ node_part number ∷ []) }
{
    push_bytes(alloc, parts, &number.to_be_bytes())
}

/// Adds a slot as it is stored: a question mark and the name of a variable, or a printed term.
pub fn push_slot(alloc: Global, parts: &mut Items<Bytes>, slot: &Slot) -> Result<(), Memory>
    ensures { OnOk result (parts.new ≡ parts.old ++ slot_part slot.now ∷ []) }
{
    match slot {
        Slot::Var(name) => push_variable(alloc, parts, name),
        Slot::Value(term) => parts.push(print_term(alloc, term)?),
    }
}

pub(crate) fn push_operand(
    alloc: Global,
    parts: &mut Items<Bytes>,
    operand: &Operand,
) -> Result<(), Memory>
    ensures { OnOk result (parts.new ≡ parts.old ++ operand_part operand.now ∷ []) }
{
    match operand {
        Operand::Var(name) => push_variable(alloc, parts, name),
        Operand::Value(term) => parts.push(print_term(alloc, term)?),
    }
}

/// Adds a question mark and a variable's name.
fn push_variable(alloc: Global, parts: &mut Items<Bytes>, name: &Bytes) -> Result<(), Memory>
    ensures { OnOk result (parts.new ≡ parts.old ++ (63 ∷ name.now) ∷ []) }
{
    let mut part = Bytes::from_slice(alloc, b"?")?;
    part.extend_from_slice(name.as_slice())?;
    parts.push(part)
}
