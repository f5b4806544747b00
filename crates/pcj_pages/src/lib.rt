//! The conditional row table in pages: rows in ascending order of keys, in pages of at most 64.
#![tactic(auto)]

mod mutation;
mod page;
mod page_table;
mod page_view;
mod read;
mod search;
mod summary;

pub use page_table::PageTable;
pub use page_view::PageView;
