//! What a reader of the transcript knows of the jobs in flight, and that it is true.
#![tactic(auto)]

mod commands;
mod known;
mod states;
mod steps;

pub use commands::commands_agree;
pub use known::{jobs_begin_and_end, others_step_beside};
pub use states::states_stay_true;
pub use steps::steps_agree;
