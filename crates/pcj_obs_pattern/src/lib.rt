//! Observers of triple patterns: what is asked next for the task of a triple, which meets the registered patterns, and for
//! that of a backfill, by which a registered pattern meets the triples that are there.
//!
//! `plan_pattern` is the plan of both, a function of the task and of the answers so far. A pattern is read from its row,
//! which has its slots and the order of the variables of its node.
#![tactic(auto)]

mod backfill;
mod fields;
mod keys;
mod laws;
mod meeting;
mod plan;
mod row;
mod triple_task;
mod writes;

pub use laws::asks_are_one;
pub use plan::plan_pattern;
