use crate::{Memory, Term, TryClone};
use std::alloc::Global;

/// An RDF triple (RDF 1.1 Concepts, section 3.1).
#[derive(PartialEq, Eq, Hash, Drop)]
pub struct Triple {
    pub subject: Term,
    pub predicate: Term,
    pub object: Term,
}

impl TryClone for Triple {
    fn try_clone(&self, alloc: Global) -> Result<Triple, Memory> {
        Ok(Triple {
            subject: self.subject.try_clone(alloc)?,
            predicate: self.predicate.try_clone(alloc)?,
            object: self.object.try_clone(alloc)?,
        })
    }
}
