//! A client at work beside others: it reads at its start, writes plain values, carries out one transaction, and takes
//! away each lock that it meets on the way, a step at a time.
//!
//! Whoever else is at work, a step is a move or two of those that the rules of `pcj_moves` allow; so what is said there
//! of moves and runs holds of it. The transactions are Percolator's (OSDI 2010, section 2.2).
#![tactic(auto)]

mod actor;
mod event;
mod put;
mod steps;
mod task;
mod told;

pub use actor::Actor;
pub use event::ActorEvent;
pub use steps::{actors_keep_all, steps_are_moves};
