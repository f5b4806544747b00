ghost use Rattle.std.specs.Prelude.{◌≡◌, OnOk, OnErr};
ghost use Rattle.pcj_table.specs.Row.{no_row, has_nothing, conds_hold, updated, add_version, place_of, is_seen_at, is_counted, has_plain_value, is_put, newest, versions_up_to};
ghost use Rattle.pcj_table.specs.declared.update.Update.TheVariants.{DropLock};

use crate::{Cond, Lock, Plain, Update, Version};
use pcj_term::{Items, Memory, TryClone};
use std::alloc::Global;

/// What one key holds.
#[derive(Drop)]
pub struct Row {
    /// The lock of a transaction that isn't ended.
    pub lock: Option<Lock>,
    /// The committed writes, in ascending order of commit.
    pub versions: Items<Version>,
    /// The value that is written without transactions.
    pub plain: Option<Plain>,
}

impl Row {
    /// The row of a key that has nothing. Takes no memory.
    pub fn new(alloc: Global) -> Row
        ensures { result ≡ no_row }
    {
        Row {
            lock: None,
            versions: Items::new(alloc),
            plain: None,
        }
    }

    /// Whether there is no lock, no version and no plain value.
    pub fn has_nothing(&self) -> bool
        ensures { result ≡ has_nothing self.now }
    {
        self.lock.is_none() && self.versions.is_empty() && self.plain.is_none()
    }

    /// Whether nothing is left where the lock is taken away.
    pub fn has_nothing_but_a_lock(&self) -> bool
        ensures { result ≡ has_nothing (updated self.now DropLock) }
    {
        self.versions.is_empty() && self.plain.is_none()
    }

    /// Whether the row is as all the conditions ask.
    pub fn satisfies(&self, conds: &[Cond]) -> bool
        ensures { result ≡ conds_hold self.now conds.now }
    {
        conds.iter().all(|cond| cond.holds(self))
    }
}

impl Row {
    /// Whether a walk at this timestamp sees the row: it has a lock with this start timestamp or an earlier one,
    /// or its newest version with this commit timestamp or an earlier one is a put, or it has a plain value.
    pub fn is_seen_at(&self, at: u64) -> bool
        ensures { result ≡ is_seen_at at self.now }
    {
        self.lock.as_ref().is_some_and(|lock| lock.start <= at)
            || is_put_at(self.versions.as_slice(), at)
            || self.has_plain_value()
    }

    /// Whether the newest version is a put, or there is a plain value.
    pub fn is_counted(&self) -> bool
        ensures { result ≡ is_counted self.now }
    {
        is_put_last(self.versions.as_slice()) || self.has_plain_value()
    }

    fn has_plain_value(&self) -> bool
        ensures { result ≡ has_plain_value self.now.plain }
    {
        self.plain
            .as_ref()
            .is_some_and(|plain| plain.value.is_some())
    }
}

/// Whether the newest version is a put.
fn is_put_last(versions: &[Version]) -> bool
    ensures { result ≡ is_put (newest versions.now) }
{
    let mut is_put = false;
    for version in versions {
        is_put = version.value.is_some();
    }
    is_put
}

/// Whether the newest of the versions with this commit timestamp or an earlier one is a put.
fn is_put_at(versions: &[Version], at: u64) -> bool
    ensures { result ≡ is_put (newest (versions_up_to at versions.now)) }
{
    let mut is_put = false;
    for version in versions {
        if version.commit <= at {
            is_put = version.value.is_some();
        }
    }
    is_put
}

impl Row {
    /// Carries out one update. After `Memory` the row is as it was.
    pub fn update(&mut self, update: Update) -> Result<(), Memory>
        ensures ok { OnOk result (self.new ≡ updated self.old update) }
        ensures err { OnErr result (self.new ≡ self.old) }
    {
        match update {
            Update::SetLock(lock) => self.lock = Some(lock),
            Update::DropLock => self.lock = None,
            Update::AddVersion(version) => add_version(&mut self.versions, version)?,
            Update::SetPlain(plain) => self.plain = Some(plain),
        }
        Ok(())
    }
}

/// Puts a version before the first that has a later commit.
fn add_version(versions: &mut Items<Version>, version: Version) -> Result<(), Memory>
    ensures ok { OnOk result (versions.new ≡ add_version version versions.old) }
    ensures err { OnErr result (versions.new ≡ versions.old) }
{
    let at = place_of(versions.as_slice(), version.commit);
    versions.insert(at, version)
}

/// How many versions stand before the first that has a later commit.
fn place_of(versions: &[Version], commit: u64) -> usize
    ensures { result ≡ place_of commit versions.now }
{
    for (at, version) in versions.iter().enumerate() {
        if version.commit > commit {
            return at;
        }
    }
    versions.len()
}

impl TryClone for Row {
    fn try_clone(&self, alloc: Global) -> Result<Row, Memory> {
        Ok(Row {
            lock: self.lock.try_clone(alloc)?,
            versions: self.versions.try_clone(alloc)?,
            plain: self.plain.try_clone(alloc)?,
        })
    }
}
