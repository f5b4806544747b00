use pcj_term::{Bytes, Memory, TryClone};
use std::alloc::Global;

/// The keys between two byte strings, neither of which is among them.
#[derive(Drop)]
pub struct KeyRange {
    /// What the keys are above.
    pub after: Bytes,
    /// What the keys are below.
    pub end: Bytes,
}

impl TryClone for KeyRange {
    fn try_clone(&self, alloc: Global) -> Result<KeyRange, Memory> {
        Ok(KeyRange {
            after: self.after.try_clone(alloc)?,
            end: self.end.try_clone(alloc)?,
        })
    }
}
