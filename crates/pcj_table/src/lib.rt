//! The conditional row table: every write of the store is one conditional mutation of one row.
//!
//! `RowTable` is the seam under the store, in the manner of a tablet server of Apache Accumulo. Its meaning is a
//! finite map from keys to rows in the order of the keys' bytes, and its clauses say exactly what each call
//! answers and changes, so that whatever meets them carries all that is proved above.
#![tactic(auto)]

mod call;
mod cond;
mod error;
mod found;
mod lock;
mod mutated;
mod pair;
mod plain;
mod row;
mod table;
mod update;
mod version;
mod write;

pub use call::begin_call;
pub use cond::Cond;
pub use error::TableError;
pub use found::Found;
pub use lock::Lock;
pub use mutated::Mutated;
pub use pair::Pair;
pub use plain::Plain;
pub use row::Row;
pub use table::RowTable;
pub use update::Update;
pub use version::Version;
pub use write::Write;
