//! Scans: a query's answer over the triples of a table at one moment, beside whoever else is at work.
//!
//! A scan draws a timestamp and reads at it, as an actor that writes nothing of its own (Percolator, OSDI 2010, section 2.2:
//! `Get`). A lock that it meets it takes away. No step of it changes what is read at any time.
#![tactic(auto)]

mod answer;
mod error;
mod locks;
mod patterns;
mod range;
mod read;
mod row;

pub use answer::scan;
pub use error::ScanError;
pub use read::read_matches;
