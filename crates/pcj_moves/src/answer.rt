use pcj_table::Pair;
use pcj_term::{Bytes, Memory, TryClone};
use std::alloc::Global;

/// What was read at a time.
#[derive(Drop)]
pub enum Answer {
    /// The row of this key has this value then, or none.
    OfRow {
        key: Bytes,
        found: Option<Bytes>,
    },
    /// Between these two keys this is the first row that has a value then, or none has one.
    OfRange {
        after: Bytes,
        end: Bytes,
        found: Option<Pair>,
    },
}

impl TryClone for Answer {
    fn try_clone(&self, alloc: Global) -> Result<Answer, Memory> {
        match self {
            Answer::OfRow { key, found } => Ok(Answer::OfRow {
                key: key.try_clone(alloc)?,
                found: found.try_clone(alloc)?,
            }),
            Answer::OfRange { after, end, found } => Ok(Answer::OfRange {
                after: after.try_clone(alloc)?,
                end: end.try_clone(alloc)?,
                found: found.try_clone(alloc)?,
            }),
        }
    }
}
