ghost use Rattle.std.specs.Prelude.{◌≡◌};
ghost use Rattle.std.specs.Option.{option_copied};
ghost use Rattle.pcj_table.specs.Row.{newest, versions_up_to};
ghost use Rattle.pcj_mvcc.specs.Reading.{lock_up_to, commit_of};

use pcj_table::{Lock, Row, Version};

/// The newest version with a commit timestamp of at most `at`, which may be a deletion.
pub fn version_at(row: &Row, at: u64) -> Option<&Version>
    ensures { option_copied result ≡ newest (versions_up_to at row.now.versions) }
{
    row.versions
        .as_slice()
        .iter()
        .rev()
        .find(|version| version.commit <= at)
}

/// The lock, where its start timestamp is at most `at`: its transaction may commit, or have committed, before.
pub fn lock_at(row: &Row, at: u64) -> Option<&Lock>
    ensures { option_copied result ≡ lock_up_to at row.now.lock }
{
    row.lock.as_ref().filter(|lock| lock.start <= at)
}

/// The commit timestamp of the first version with this start timestamp: the transaction's, where the row is its
/// primary.
pub fn commit_of(row: &Row, start: u64) -> Option<u64>
    ensures { result ≡ commit_of start row.now.versions }
{
    row.versions
        .as_slice()
        .iter()
        .find(|version| version.start == start)
        .map(|version| version.commit)
}
