//! What is kept of the answers of registered queries: rows of nodes, their tasks and the exported lines.
#![tactic(auto)]

mod kept;

pub use kept::commits_keep_all;
