use crate::Row;
use pcj_term::{Memory, TryClone};
use std::alloc::Global;

/// What became of a mutation.
#[derive(Drop)]
pub enum Mutated {
    /// All conditions held, and the updates were carried out.
    Applied,
    /// A condition was false, and nothing was changed. The row as it stands.
    Rejected(Row),
}

impl TryClone for Mutated {
    fn try_clone(&self, alloc: Global) -> Result<Mutated, Memory> {
        match self {
            Mutated::Applied => Ok(Mutated::Applied),
            Mutated::Rejected(row) => Ok(Mutated::Rejected(row.try_clone(alloc)?)),
        }
    }
}
