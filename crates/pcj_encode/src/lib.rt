//! The keys of the rows of the store: one for each name of a row, and ranges that hold exactly the keys of a kind.
//!
//! All rows stand in one sorted table: the three orders of the triples, the rows of query nodes, groups and
//! their members, registrations, names, patterns, tasks and exports. A key is that of a list of parts of
//! `pcj_key`, and begins with a letter that says of what kind the row is. `write_key` gives the key of a name,
//! and `read_key` the name of a key. `one_key_for_each_name`, `keys_keep_kinds_and_order` and
//! `ranges_hold_their_kind` are proofs of what holds of all names.
//!
//! A later kind of row or task is one more variant of `KeyName` or `TaskName`, with a letter of its own in
//! `Tag` or `TaskTag`.
#![tactic(auto)]

mod fields;
mod key_name;
mod key_range;
mod laws;
mod order;
mod parts;
mod range;
mod read;
mod read_task;
mod tag;
mod task_name;
mod task_tag;
mod write;

pub use key_name::KeyName;
pub use key_range::KeyRange;
pub use laws::{keys_keep_kinds_and_order, one_key_for_each_name, ranges_hold_their_kind};
pub use order::Order;
pub use range::{
    export_range, group_range, node_range, pattern_range, registration_range, task_range,
    triple_range,
};
pub use read::read_key;
pub use task_name::TaskName;
pub use write::{triple_key, write_key};
