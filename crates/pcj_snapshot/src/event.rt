use pcj_table::{Lock, Pair};
use pcj_term::{Bytes, Memory, TryClone};
use std::alloc::Global;

/// What a read came to.
#[derive(Drop)]
pub enum ReadEvent {
    /// This value is seen in the row of this key.
    Found(Pair),
    /// No value is seen in the row, or in any row of the range.
    Nothing,
    /// The row that is read has a lock of the read's timestamp or before. The same read is due at the next step.
    MetLock { key: Bytes, lock: Lock },
}

impl TryClone for ReadEvent {
    fn try_clone(&self, alloc: Global) -> Result<ReadEvent, Memory> {
        match self {
            ReadEvent::Found(pair) => Ok(ReadEvent::Found(pair.try_clone(alloc)?)),
            ReadEvent::Nothing => Ok(ReadEvent::Nothing),
            ReadEvent::MetLock { key, lock } => Ok(ReadEvent::MetLock {
                key: key.try_clone(alloc)?,
                lock: lock.try_clone(alloc)?,
            }),
        }
    }
}
