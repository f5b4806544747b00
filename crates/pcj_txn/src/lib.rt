//! A transaction, carried out a step at a time.
//!
//! It is that of Percolator (OSDI 2010, section 2.2): the row of each write is locked, a commit timestamp is drawn, and
//! the locks become versions, the primary's first. `Txn::step` does one of these and says what it came to, so that
//! anyone else may step in between.
#![tactic(auto)]

mod error;
mod event;
mod law;
mod refusal;
mod row;
mod txn;

pub use error::TxnError;
pub use event::TxnEvent;
pub use law::one_event_is_right;
pub use txn::Txn;
