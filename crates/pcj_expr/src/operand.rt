ghost use Rattle.std.specs.Prelude.{◌≡◌};
ghost use Rattle.std.specs.Option.{option_copied};
ghost use Rattle.pcj_expr.specs.Truth.{value_of};

use crate::Mapping;
use pcj_term::{Bytes, Memory, Term, TryClone};
use std::alloc::Global;

/// What is compared.
#[derive(Drop)]
pub enum Operand {
    /// A variable, by its name without the question mark.
    Var(Bytes),
    /// A term.
    Value(Term),
}

impl TryClone for Operand {
    fn try_clone(&self, alloc: Global) -> Result<Operand, Memory> {
        match self {
            Operand::Var(name) => Ok(Operand::Var(name.try_clone(alloc)?)),
            Operand::Value(term) => Ok(Operand::Value(term.try_clone(alloc)?)),
        }
    }
}

impl Operand {
    /// The term that it is under a mapping, unless it is a variable that is unbound.
    pub(crate) fn value<'m>(&'m self, mapping: &'m Mapping) -> Option<&'m Term>
        ensures { option_copied result ≡ value_of mapping.now self.now }
    {
        match self {
            Operand::Var(name) => mapping.get(name),
            Operand::Value(term) => Some(term),
        }
    }
}
