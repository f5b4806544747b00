//! The rows of nodes that stand are put once and are true, and each task of theirs has its row. There is no call here: these are
//! claims on rows, with the law that the last commit of each actor keeps them.
#![tactic(auto)]

mod nodes;

pub use nodes::commits_keep_nodes;
