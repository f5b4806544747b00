use pcj_term::{Bytes, Memory, TryClone};
use std::alloc::Global;

/// A key with its value.
#[derive(Drop)]
pub struct Pair {
    pub key: Bytes,
    pub value: Bytes,
}

impl TryClone for Pair {
    fn try_clone(&self, alloc: Global) -> Result<Pair, Memory> {
        Ok(Pair {
            key: self.key.try_clone(alloc)?,
            value: self.value.try_clone(alloc)?,
        })
    }
}
