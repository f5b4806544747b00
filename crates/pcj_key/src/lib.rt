//! Keys of lists of parts, in the order of their parts.
//!
//! A part is any list of bytes. In a key each part has its bytes 0 and 1 escaped and ends with the byte 0, so
//! that keys compare, byte by byte, as their lists of parts do, and a prefix of whole parts is a range.
#![tactic(auto)]

mod join;
mod order;
mod plain;
mod prefix;
mod split;

pub use join::join_parts;
pub use order::{keys_are_injective, keys_keep_order, prefixes_are_ranges};
pub use prefix::prefix_end;
pub use split::split_parts;
