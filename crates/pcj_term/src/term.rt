use crate::{Bytes, Kind, Memory, TryClone};
use std::alloc::Global;

/// An RDF term (RDF 1.1 Concepts, section 3). Texts are UTF-8, in bytes.
#[derive(PartialEq, Eq, Hash, Drop)]
pub enum Term {
    /// An absolute IRI, without its brackets.
    Iri(Bytes),
    /// A blank node: the number of the load that it came with, and its label there.
    Blank { load: u64, label: Bytes },
    /// A literal: its text without quotes and escapes, and its kind.
    Literal { text: Bytes, kind: Kind },
}

impl TryClone for Term {
    fn try_clone(&self, alloc: Global) -> Result<Term, Memory> {
        match self {
            Term::Iri(iri) => Ok(Term::Iri(iri.try_clone(alloc)?)),
            Term::Blank { load, label } => Ok(Term::Blank {
                load: *load,
                label: label.try_clone(alloc)?,
            }),
            Term::Literal { text, kind } => Ok(Term::Literal {
                text: text.try_clone(alloc)?,
                kind: kind.try_clone(alloc)?,
            }),
        }
    }
}
