//! A line of cases: its call, its fields, and the answer behind them.
//!
//! A program of cases reads them on standard input, a line each, and writes each line again with the answer behind it, as
//! `answer_lines` does with its `Cases`. What a line's fields are is read by `fields`, `word`, `number` and `size`, and an
//! `Answer` is put together a field after another. An empty line and one that begins with `#` are written as they are.
//!
//! It is for programs with a stored run, and no part of the store.
#![tactic(auto)]

mod answer;
mod argument;
mod escape;
mod field;
mod input;
mod unanswered;

pub use answer::Answer;
pub use argument::{number, size, word};
pub use field::fields;
pub use input::{Cases, Tally, answer_lines};
pub use unanswered::Unanswered;
