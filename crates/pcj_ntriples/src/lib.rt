//! N-Triples documents, read into triples (RDF 1.1 N-Triples).
//!
//! `read_document` takes exactly the documents of the grammar, and refuses every other text by the number of its
//! lowest faulty line and the first fault from the left on it. A line is empty or a triple, with blanks around
//! and between its terms, and may end in a comment. IRIs are absolute, language tags are given in lower case, a
//! literal of datatype xsd:string is a plain one, and blank nodes carry the load's number. A term has at most
//! 16,384 bytes as it is written, and a document at most 10,000 distinct triples. No text can be read in two
//! ways, nor be both read and refused: `one_reading` is the proof. What is read are triples of RDF, of terms that
//! `pcj_term` calls valid: `valid_triples` is the proof.
#![tactic(auto)]

mod document;
mod enclosure;
mod error;
mod fault;
mod kind;
mod line;
mod lines;
mod name;
mod place;
mod reader;
mod term;
mod text;

pub use document::{one_reading, read_document, valid_triples};
pub use error::{NtError, NtRefusal};
pub use kind::{NtKind, nt_number};
