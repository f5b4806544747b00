use pcj_term::{Bytes, Memory, TryClone};
use std::alloc::Global;

/// A committed write of a row (Percolator, section 2.2).
#[derive(Drop)]
pub struct Version {
    /// The commit timestamp of the transaction.
    pub commit: u64,
    /// The start timestamp of the transaction.
    pub start: u64,
    /// The value that was put, or none where the row was deleted.
    pub value: Option<Bytes>,
}

impl TryClone for Version {
    fn try_clone(&self, alloc: Global) -> Result<Version, Memory> {
        Ok(Version {
            commit: self.commit,
            start: self.start,
            value: self.value.try_clone(alloc)?,
        })
    }
}
