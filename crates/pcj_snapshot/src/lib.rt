//! Reads at a timestamp, a step at a time.
//!
//! A read sees what was committed up to its timestamp (Percolator, OSDI 2010, section 2.2: `Get`). A lock of that time or
//! before stands in its way, since its transaction may have committed before or may do so yet: the reader has to take the
//! lock away first.
#![tactic(auto)]

mod ask;
mod event;
mod read;
mod row;

pub use event::ReadEvent;
pub use read::SnapRead;
