use pcj_term::{Memory, TryClone};
use std::alloc::Global;

/// In which order a row of a triple has the triple's terms (Punnoose, Crainiceanu and Rapp, "Rya: a scalable RDF
/// triple store for the clouds", 2012).
#[derive(Clone, Copy, PartialEq, Eq)]
pub enum Order {
    /// Subject, predicate, object.
    Spo,
    /// Predicate, object, subject.
    Pos,
    /// Object, subject, predicate.
    Osp,
}

impl TryClone for Order {
    fn try_clone(&self, _alloc: Global) -> Result<Order, Memory> {
        Ok(*self)
    }
}
