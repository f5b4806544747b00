use pcj_term::{Bytes, Memory, TryClone};
use std::alloc::Global;

/// A value that is written without a transaction, with the number of its writer.
#[derive(Drop)]
pub struct Plain {
    /// The sequence number: a write of a lower one is turned away by `Cond::PlainBelow`.
    pub seq: u64,
    /// The value, or none where it was deleted.
    pub value: Option<Bytes>,
}

impl TryClone for Plain {
    fn try_clone(&self, alloc: Global) -> Result<Plain, Memory> {
        Ok(Plain {
            seq: self.seq,
            value: self.value.try_clone(alloc)?,
        })
    }
}
