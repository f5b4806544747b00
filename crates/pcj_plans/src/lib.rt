//! The plans of observers as an actor carries them out: what it has read and writes is what a worker may do.
#![tactic(auto)]

mod plans;

pub use plans::plans_are_purposes;
