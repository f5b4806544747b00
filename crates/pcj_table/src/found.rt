use crate::Row;
use pcj_term::{Bytes, Memory, TryClone};
use std::alloc::Global;

/// A row with its key.
#[derive(Drop)]
pub struct Found {
    pub key: Bytes,
    pub row: Row,
}

impl TryClone for Found {
    fn try_clone(&self, alloc: Global) -> Result<Found, Memory> {
        Ok(Found {
            key: self.key.try_clone(alloc)?,
            row: self.row.try_clone(alloc)?,
        })
    }
}
