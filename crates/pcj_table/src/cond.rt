ghost use Rattle.std.specs.Prelude.{◌≡◌};
ghost use Rattle.pcj_table.specs.Row.{cond_holds, are_below};

use crate::{Row, Version};
use pcj_term::{Memory, TryClone};
use std::alloc::Global;

/// What a mutation asks of its row before anything is changed.
#[derive(Clone, Copy, PartialEq, Eq)]
pub enum Cond {
    /// No lock stands.
    NoLock,
    /// A lock with this start timestamp stands.
    LockIs(u64),
    /// No version has this commit timestamp or a later one.
    NoVersionFrom(u64),
    /// There is no plain value, or its sequence number is below this one.
    PlainBelow(u64),
}

impl Cond {
    /// Whether the row is as the condition asks.
    pub fn holds(&self, row: &Row) -> bool
        ensures { result ≡ cond_holds row.now self.now }
    {
        match self {
            Cond::NoLock => row.lock.is_none(),
            Cond::LockIs(start) => row.lock.as_ref().is_some_and(|lock| lock.start == *start),
            Cond::NoVersionFrom(commit) => are_below(row.versions.as_slice(), *commit),
            Cond::PlainBelow(seq) => row.plain.as_ref().is_none_or(|plain| plain.seq < *seq),
        }
    }
}

/// Whether all the versions have lower commit timestamps.
fn are_below(versions: &[Version], commit: u64) -> bool
    ensures { result ≡ are_below commit versions.now }
{
    versions.iter().all(|version| version.commit < commit)
}

impl TryClone for Cond {
    fn try_clone(&self, _alloc: Global) -> Result<Cond, Memory> {
        Ok(*self)
    }
}
