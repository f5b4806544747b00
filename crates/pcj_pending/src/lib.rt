//! What is pending in a table: the rows that have a lock, and the tasks that wait for a worker.
//!
//! In Percolator's words (OSDI 2010, sections 2.2 and 2.4), a lock is that of a transaction which isn't ended, and a task is a
//! notification.
#![tactic(auto)]

mod counts;
mod laws;
mod tally;
mod walk;

pub use counts::{count_locks, count_notifications, has_notification, pending};
pub use laws::{
    moves_add_one_at_most, moves_set_and_free_locks, quiet_tables_have_nothing_pending,
};
pub use tally::Pending;
