use pcj_term::{Memory, TryClone};
use std::alloc::Global;

/// What a step of a recovery came to.
#[derive(Clone, Copy, PartialEq, Eq)]
pub enum RecoveryEvent {
    /// The primary was looked at, and a further step is due.
    Working,
    /// The transaction is committed, and its lock on the row has become a version, or was gone.
    RolledForward,
    /// The transaction isn't committed, and its lock on the row is taken away, or was gone.
    RolledBack,
}

impl TryClone for RecoveryEvent {
    fn try_clone(&self, _alloc: Global) -> Result<RecoveryEvent, Memory> {
        Ok(*self)
    }
}
