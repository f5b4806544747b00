use crate::{Bytes, Memory, TryClone};
use std::alloc::Global;

/// What kind a literal is of (RDF 1.1 Concepts, section 3.3).
#[derive(PartialEq, Eq, Hash, Drop)]
pub enum Kind {
    /// A literal of the datatype xsd:string, written without one.
    Plain,
    /// A literal with a language tag, in lower case and without its `@`.
    Lang(Bytes),
    /// A literal with another datatype, its IRI without brackets.
    Typed(Bytes),
}

impl TryClone for Kind {
    fn try_clone(&self, alloc: Global) -> Result<Kind, Memory> {
        match self {
            Kind::Plain => Ok(Kind::Plain),
            Kind::Lang(tag) => Ok(Kind::Lang(tag.try_clone(alloc)?)),
            Kind::Typed(datatype) => Ok(Kind::Typed(datatype.try_clone(alloc)?)),
        }
    }
}
