//! The tokens of SPARQL 1.1 query texts.
//!
//! `next_token` gives the token that follows a place of a text, past blanks and comments, by the rules of
//! `specs/Rules.antt`: they are tried in their order, the first that fits applies, and it takes the longest front
//! that has its form. The token's source is a slice of the text. Tokens that the standard has and that this
//! profile leaves out are of the kind `Outside`. No text has two tokens at a place: `one_token` is the proof.
//!
//! Nothing here takes memory.
#![tactic(auto)]

mod character;
mod laws;
mod next;
mod reader;
mod rule;
mod state;
mod token;

pub use laws::one_token;
pub use next::next_token;
pub use token::{LexRefusal, Token, TokenKind};
