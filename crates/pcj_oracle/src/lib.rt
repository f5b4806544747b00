//! The timestamp oracle: strictly rising numbers, each of which is granted once.
//!
//! The oracle takes numbers from the row table in blocks, as that of Percolator does (section 2.3): the clock's
//! row holds the first number that was never granted, and is raised before the first number of a block is. So a
//! crash loses the rest of a block, and grants no number again.
#![tactic(auto)]

mod block;
mod clock;
mod error;
mod law;
mod oracle;

pub use error::OracleError;
pub use law::{draws_change_the_clock_alone, numbers_rise};
pub use oracle::Oracle;
