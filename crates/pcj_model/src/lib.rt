//! What the program says: the lines of a transcript as values, how they are printed, which lines may answer a command, and
//! what is known after them.
//!
//! `Line` has a variant for each kind of line that commands may answer, and `push_line` prints them all. No line has an
//! LF inside, so that what was said can be told from its print: `lines_stand_apart` is the proof.
//!
//! What may be said is a relation, `Reply` in `specs/Reply.antt`, and a run of commands is a list of replies, each from the
//! state that the one before it left. What a run came to can be told from its lines: `transcripts_are_told` is the proof.
//! `Ending` says how a run ends.
#![tactic(auto)]

mod ending;
mod event;
mod laws;
mod line;
mod print;

pub use ending::Ending;
pub use event::Event;
pub use laws::{
    commands_are_answered, crashed_jobs_are_gone, endings_are_told, endings_stand,
    lines_stand_apart, loads_join_whole, queries_join, replies_are_told, runs_go_on,
    steps_are_told, texts_tell_lines, timestamps_rise, transcripts_are_told,
};
pub use line::Line;
pub use print::{push_line, push_lines};
