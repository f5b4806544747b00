//! The top call: a script carried out over a table, command by command, into its transcript.
//!
//! `replay` reads a script, carries out its commands by a `Session`, and writes what each comes to before the next one begins.
//! What it may write is a run of the script's commands (`Run` of `pcj_model`), for every language that is SPARQL's, and how a
//! run may end is one relation (`Ends`).
#![tactic(auto)]

mod answer;
mod input;
mod run;
mod stop;
mod top;

pub use top::{is_replay, replay};
