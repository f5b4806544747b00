//! The acts of a transaction on one row, what a read of a row asks of it, and what stands and is seen in a table.
//!
//! A transaction is that of Percolator (OSDI 2010, section 2.2): it locks each row that it writes, and is
//! committed once the lock on its first row, the primary, has become a version. From then on its locks on other
//! rows count as versions too. `versions_read` is that reading of a row; the newest put of it stands, and the
//! newest put up to a time is seen at that time.
//!
//! Each act is a list of conditions and of updates for one mutation of one row. The laws say what it leaves of
//! what is read: the primary's commit makes all rows of its transaction stand at once, and every other act
//! changes no row's reading.
//!
//! `under` gives the rows in which some transactions are committed that have drawn their commit and still have
//! their primary's lock, for claims that have to hold whichever of them is committed next.
#![tactic(auto)]

mod act;
mod read;
mod standing;

pub use act::{Act, commit_row, prewrite, roll_back_row, roll_forward_row};
pub use read::{commit_of, lock_at, version_at};
pub use standing::{
    acts_change_one_row, acts_keep_times_in_order, choices_commit_one_by_one,
    commits_stand_at_once, locks_name_one_primary, other_acts_keep_readings,
    readings_decide_what_stands, reads_give_what_is_seen, standing_puts_are_seen,
};
