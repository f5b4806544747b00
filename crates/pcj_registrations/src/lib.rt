//! The registrations of a table: which queries are registered, by which names and numbers.
#![tactic(auto)]

mod reading;
mod registration;
mod standing;
mod walk;

pub use registration::Registration;
pub use walk::registrations;
