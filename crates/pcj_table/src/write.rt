use pcj_term::{Bytes, Memory, TryClone};
use std::alloc::Global;

/// One write of a transaction.
#[derive(Drop)]
pub struct Write {
    pub key: Bytes,
    /// The value to put, or none where the row is to be deleted.
    pub value: Option<Bytes>,
}

impl TryClone for Write {
    fn try_clone(&self, alloc: Global) -> Result<Write, Memory> {
        Ok(Write {
            key: self.key.try_clone(alloc)?,
            value: self.value.try_clone(alloc)?,
        })
    }
}
