//! The commands of a script, one after another.
//!
//! `next_command` tells what stands at the front of a script's bytes: a command, a line that is skipped, a line that is
//! refused, the end, or nothing yet where more bytes may come. A text of a command is a slice of the script's bytes, and
//! nothing is allocated.
//!
//! All bytes are a script in exactly one way: `one_script` is the proof.
#![tactic(auto)]

mod command;
mod error;
mod front;
mod laws;
mod line;
mod number;
mod opening;
mod place;
mod text;
mod words;

pub use command::{Command, Crashed};
pub use error::{ScriptError, ScriptKind, script_number};
pub use front::{Front, next_command};
pub use laws::{one_front, one_script, pieces_agree};
