//! The lines of a transcript: one call for each kind of line, which adds it with its LF to some
//! bytes, or leaves them as they were where there is no memory for it.
#![tactic(auto)]

mod answer;
mod ending;
mod job;

pub use answer::{push_no_query, push_row, push_rows};
pub use ending::{push_refused_line, push_spent, push_usage};
pub use job::{push_committed, push_loaded, push_refused, push_registered, push_taken};
