use pcj_table::{Lock, Row};
use pcj_term::{Bytes, Memory, TryClone};
use std::alloc::Global;

/// What a step of a transaction came to.
#[derive(Drop)]
pub enum TxnEvent {
    /// The next row has its lock.
    Prewrote,
    /// The next row has a lock, of another transaction or of one that was carried out before. The same prewrite is due
    /// at the next step.
    MetLock { key: Bytes, lock: Lock },
    /// The next row has no lock, and a version with the transaction's start timestamp or a later one. The newest of
    /// these has this commit timestamp. The transaction can't be committed any more.
    Conflict { key: Bytes, commit: u64 },
    /// The commit timestamp is drawn.
    DrewCommit(u64),
    /// The primary has its version of this commit timestamp, and with it the transaction is committed.
    Committed(u64),
    /// The primary, which is this row, has lost its lock. The transaction can't be committed any more.
    PrimaryLost(Row),
    /// Another row than the primary has its version: its lock was made one at this step, or was gone.
    SecondaryDone,
    /// All is done.
    Done,
}

impl TryClone for TxnEvent {
    fn try_clone(&self, alloc: Global) -> Result<TxnEvent, Memory> {
        match self {
            TxnEvent::Prewrote => Ok(TxnEvent::Prewrote),
            TxnEvent::MetLock { key, lock } => Ok(TxnEvent::MetLock {
                key: key.try_clone(alloc)?,
                lock: lock.try_clone(alloc)?,
            }),
            TxnEvent::Conflict { key, commit } => Ok(TxnEvent::Conflict {
                key: key.try_clone(alloc)?,
                commit: *commit,
            }),
            TxnEvent::DrewCommit(commit) => Ok(TxnEvent::DrewCommit(*commit)),
            TxnEvent::Committed(commit) => Ok(TxnEvent::Committed(*commit)),
            TxnEvent::PrimaryLost(row) => Ok(TxnEvent::PrimaryLost(row.try_clone(alloc)?)),
            TxnEvent::SecondaryDone => Ok(TxnEvent::SecondaryDone),
            TxnEvent::Done => Ok(TxnEvent::Done),
        }
    }
}
