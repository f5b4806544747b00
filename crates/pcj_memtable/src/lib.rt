//! The conditional row table in memory: a vector of rows in ascending order of keys.
#![tactic(auto)]

mod mem_table;

pub use mem_table::MemTable;
