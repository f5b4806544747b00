use pcj_table::{Lock, Plain, Update, Version};
use pcj_term::{Bytes, Memory};
use std::alloc::Global;

/// An update as plain data: what it does, and the timestamp or number that it does it with.
#[derive(Clone, Copy)]
pub(crate) enum Change {
    /// Sets a lock of this start on the primary `p`.
    Lock(u64),
    /// Takes the lock away.
    Unlock,
    /// Adds a version of this commit that puts `v`. Its start is the number before.
    Put(u64),
    /// Adds a version of this commit that deletes. Its start is the number before.
    Delete(u64),
    /// Sets the plain value `v` of this number.
    Plain(u64),
    /// Sets a plain value of this number that is deleted.
    NoPlain(u64),
}

impl Change {
    /// The update itself.
    pub(crate) fn update(self, alloc: Global) -> Result<Update, Memory> {
        match self {
            Change::Lock(start) => lock(alloc, start),
            Change::Unlock => Ok(Update::DropLock),
            Change::Put(commit) => Ok(version(commit, Some(letter(alloc)?))),
            Change::Delete(commit) => Ok(version(commit, None)),
            Change::Plain(seq) => Ok(plain(seq, Some(letter(alloc)?))),
            Change::NoPlain(seq) => Ok(plain(seq, None)),
        }
    }
}

fn letter(alloc: Global) -> Result<Bytes, Memory> {
    Bytes::from_slice(alloc, b"v")
}

fn lock(alloc: Global, start: u64) -> Result<Update, Memory> {
    Ok(Update::SetLock(Lock {
        start,
        primary: Bytes::from_slice(alloc, b"p")?,
        value: None,
    }))
}

fn version(commit: u64, value: Option<Bytes>) -> Update {
    Update::AddVersion(Version {
        commit,
        start: commit.saturating_sub(1),
        value,
    })
}

fn plain(seq: u64, value: Option<Bytes>) -> Update {
    Update::SetPlain(Plain { seq, value })
}
