//! The clients that are at work, and their steps.
#![tactic(auto)]

mod busy;
mod clients;
mod stepped;

pub use busy::Busy;
pub use clients::Clients;
pub use stepped::{Stepped, StepsEnd};
