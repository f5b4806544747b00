//! What actors are at work for: loads, registrations, and the tasks of workers. What a worker does is said by what it has read: how
//! far its task goes on, and which rows of nodes it adds, each with a task of its own.
#![tactic(auto)]

mod duties;

pub use duties::purposes_are_plans;
