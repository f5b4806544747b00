//! The rows of a table by their names: what each may hold, which stand together, for which row a task was made, and what loads,
//! registrations and workers write. There is no call here: `pcj_fit` says with these words what holds of every table.
#![tactic(auto)]

mod rows;

pub use rows::rows_decode;
