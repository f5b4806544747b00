//! Clients at work: a load, or the registration of a query, as one transaction beside others, a step at a time.
#![tactic(auto)]

mod event;
mod job;
mod load_job;
mod register_job;
mod register_writes;
mod triple_parts;
mod writes;

pub use event::JobEvent;
pub use job::Job;
pub use load_job::LoadJob;
pub use register_job::RegisterJob;
