use crate::{Lock, Plain, Version};
use pcj_term::{Memory, TryClone};
use std::alloc::Global;

/// One change that a mutation makes to its row.
#[derive(Drop)]
pub enum Update {
    /// Puts a lock, in place of one that stands.
    SetLock(Lock),
    /// Takes the lock away, where one stands.
    DropLock,
    /// Adds a version in ascending order of commit, after those of the same commit.
    AddVersion(Version),
    /// Puts a plain value, in place of the one that stands.
    SetPlain(Plain),
}

impl TryClone for Update {
    fn try_clone(&self, alloc: Global) -> Result<Update, Memory> {
        match self {
            Update::SetLock(lock) => Ok(Update::SetLock(lock.try_clone(alloc)?)),
            Update::DropLock => Ok(Update::DropLock),
            Update::AddVersion(version) => Ok(Update::AddVersion(version.try_clone(alloc)?)),
            Update::SetPlain(plain) => Ok(Update::SetPlain(plain.try_clone(alloc)?)),
        }
    }
}
