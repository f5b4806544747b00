//! Query texts of the profile of SPARQL 1.1, read into queries.
//!
//! `read_query` gives the query of a text in the standard's algebra, or the place and the kind of its fault. Which text has
//! which query, and which fault any other one has, stands in `specs/Query.antt`, and is said of the derivation of the text's
//! tokens. Each text has one of the two, and never both: `one_query` is the proof.
#![tactic(auto)]

mod check;
mod clauses;
mod declared;
mod error;
mod head;
mod heading;
mod kind;
mod laws;
mod names;
mod prefixes;
mod query;
mod read;
mod said;
mod shape;
mod sizes;
mod uses;

pub use error::{QueryError, QueryRefusal};
pub use kind::{QueryKind, query_number};
pub use laws::one_query;
pub use read::read_query;
