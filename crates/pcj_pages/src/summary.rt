ghost use Rattle.std.specs.Prelude.{◌≡◌, ◌≤◌, ◌<◌, ◌+◌, ◌-◌, ◌^◌, max, [], ◌∷◌, length};
ghost use Rattle.pcj_pages.specs.Summary.{summary_of, is_dead_at, last_commit};
ghost use Rattle.pcj_pages.specs.Adding.{row_summary, summed};

use pcj_table::{Found, Row, Version};

/// What a page knows of its rows without a look at them.
#[derive(Clone, Copy)]
pub(crate) struct Summary {
    /// How many rows have a put for their newest version, or a plain value.
    pub live: u64,
    /// How many rows have a lock.
    pub locks: u64,
    /// The greatest commit timestamp of the versions, or 0.
    pub newest: u64,
}

impl Summary {
    /// The summary of no rows.
    pub(crate) fn none() -> Summary
        ensures { result ≡ summary_of [] }
    {
        Summary {
            live: 0,
            locks: 0,
            newest: 0,
        }
    }

    /// The summary of one row.
    pub(crate) fn of_row(row: &Row) -> Summary
        ensures { result ≡ row_summary row.now }
    {
        Summary {
            live: row.is_counted() as u64,
            locks: row.lock.is_some() as u64,
            newest: last_commit(row.versions.as_slice()),
        }
    }

    /// The summary of these rows.
    pub(crate) fn of(rows: &[Found]) -> Summary
        requires { length rows.now < 2 ^ 64 }
        ensures { result ≡ summary_of rows.now }
    {
        let mut summary = Summary::none();
        for found in rows {
            summary = summary.and(Summary::of_row(&found.row));
        }
        summary
    }

    /// The summary of these rows and those.
    pub(crate) fn and(self, other: Summary) -> Summary
        requires live { self.live + other.live < 2 ^ 64 }
        requires locks { self.locks + other.locks < 2 ^ 64 }
        ensures { result ≡ summed self other }
    {
        Summary {
            live: self.live + other.live,
            locks: self.locks + other.locks,
            newest: self.newest.max(other.newest),
        }
    }

    /// The summary of rows one of which was replaced, whose versions stay.
    pub(crate) fn replaced(self, old: Summary, new: Summary) -> Summary
        requires live { old.live ≤ self.live }
        requires locks { old.locks ≤ self.locks }
        requires live_fit { self.live - old.live + new.live < 2 ^ 64 }
        requires locks_fit { self.locks - old.locks + new.locks < 2 ^ 64 }
        ensures live { result.live ≡ self.live - old.live + new.live }
        ensures locks { result.locks ≡ self.locks - old.locks + new.locks }
        ensures newest { result.newest ≡ max self.newest new.newest }
    {
        Summary {
            live: self.live - old.live + new.live,
            locks: self.locks - old.locks + new.locks,
            newest: self.newest.max(new.newest),
        }
    }

    /// Whether no row of such a page is seen at this timestamp.
    pub(crate) fn is_dead_at(self, at: u64) -> bool
        ensures { result ≡ is_dead_at at self }
    {
        self.live == 0 && self.locks == 0 && self.newest <= at
    }
}

/// The greatest commit timestamp, or 0.
fn last_commit(versions: &[Version]) -> u64
    ensures { result ≡ last_commit versions.now }
{
    let mut last = 0;
    for version in versions {
        last = version.commit.max(last);
    }
    last
}
