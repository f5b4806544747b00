//! Which rows of the table serve a triple pattern.
#![tactic(auto)]

mod laws;
mod serving;

pub use laws::ranges_hold_matches;
pub use serving::pattern_rows;
