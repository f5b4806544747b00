//! RDF terms and triples, the lists that hold them, how a term is printed, and how it is read again.
//!
//! Every later crate stands on these types. Contracts see `Bytes` and `Items` as the lists that they
//! hold, so a term is plain data there, and a copy equals what it copies.
//!
//! A printed form is read back by `read_term`, and belongs to one valid term alone: `one_printed_form` is
//! the proof. What the parts of a valid term are made of is said once, by the tests `is_absolute_iri`,
//! `is_label`, `is_language_tag` and `is_utf8`.
//!
//! What allocates takes the allocator first and answers `Memory` where there is none left.
#![tactic(auto)]

mod bytes;
mod integer;
mod iri;
mod items;
mod kind;
mod label;
mod laws;
mod memory;
mod pieces;
mod print;
mod read;
mod read_text;
mod tag;
mod term;
mod triple;
mod try_clone;
mod utf8;

pub use bytes::Bytes;
pub use integer::integer_of;
pub use iri::{is_absolute, is_absolute_iri, is_iri, is_letter};
pub use items::Items;
pub use kind::Kind;
pub use label::{
    is_label, is_label_character, is_label_start, is_name_base, is_name_character, is_name_start,
};
pub use laws::one_printed_form;
pub use memory::Memory;
pub use print::{print_term, push_term};
pub use read::read_term;
pub use tag::{is_language_tag, is_lower_case};
pub use term::Term;
pub use triple::Triple;
pub use try_clone::TryClone;
pub use utf8::is_utf8;
