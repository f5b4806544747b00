//! The grammar of the profile of SPARQL 1.1, and where a text departs from it.
//!
//! `read_grammar` gives the tokens of a text of the grammar, and refuses any other text at the first token that no text
//! of the grammar has there. What the grammar is stands in `specs/Grammar.antt`, a row for each production, and what no
//! text of it has at a place is said by its derivations alone. The code is a pushdown automaton, which goes over each
//! token once and holds what is still to come. Each text is read in one way, and a query's tokens derive in one way:
//! `one_reading` and `one_derivation` are the proofs.
#![tactic(auto)]

mod clause;
mod fault;
mod laws;
mod lexeme;
mod parser;
mod read;
mod symbol;
mod terminal;

pub use fault::{Fault, FaultKind, Refusal};
pub use laws::{one_derivation, one_reading};
pub use lexeme::Lexeme;
pub use read::read_grammar;
pub use terminal::Terminal;
