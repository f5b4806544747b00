//! A recovery: what whoever meets the lock of another transaction does with it, a step at a time.
//!
//! A transaction is committed where its primary's row has its version (Percolator, OSDI 2010, section 2.2). So a recovery
//! looks there first. If the transaction is committed, the lock that was met becomes a version of that commit, and else
//! it is taken away, and that of the primary before it, so that the transaction can't be committed any more.
#![tactic(auto)]

mod event;
mod primary;
mod recovery;

pub use event::RecoveryEvent;
pub use recovery::Recovery;
