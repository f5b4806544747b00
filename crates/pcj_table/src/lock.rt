use pcj_term::{Bytes, Memory, TryClone};
use std::alloc::Global;

/// The lock of a transaction on a row (Percolator, section 2.2): it stands from the prewrite to the commit.
#[derive(Drop)]
pub struct Lock {
    /// The start timestamp of the transaction.
    pub start: u64,
    /// The key of the row whose lock decides whether the transaction has committed.
    pub primary: Bytes,
    /// The value that is to be put, or none where the row is to be deleted.
    pub value: Option<Bytes>,
}

impl TryClone for Lock {
    fn try_clone(&self, alloc: Global) -> Result<Lock, Memory> {
        Ok(Lock {
            start: self.start,
            primary: self.primary.try_clone(alloc)?,
            value: self.value.try_clone(alloc)?,
        })
    }
}
