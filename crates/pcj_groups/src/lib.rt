//! Where groups of a query text are at fault: groups without a pattern, filters with variables that their group doesn't
//! have, and UNION of groups with different variables.
#![tactic(auto)]

mod faults;
mod findings;
mod walk;

pub use faults::GroupFaults;
pub use walk::group_faults;
