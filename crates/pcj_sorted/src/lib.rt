//! Rows in ascending order of keys: where a key's row stands among them, the rows of a range, and a mutation.
//!
//! Engines of a table stand on it that keep their rows in vectors: each call works on one vector or one slice, and
//! says what it answers and changes there of the rows or of the table whose rows these are.
#![tactic(auto)]

mod mutation;
mod place;
mod range;
mod read;
mod row_change;
mod walk;

pub use mutation::{change, mutate};
pub use place::place_of;
pub use range::{rows_above, rows_below, rows_from};
pub use read::{row_of, shown};
pub use row_change::RowChange;
pub use walk::{copied, count_between, next_locked, next_seen};
