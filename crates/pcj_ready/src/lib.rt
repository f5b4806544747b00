//! What the exported lines of registered queries say: true lines of their answers always, and all of them where no task stands.
#![tactic(auto)]

mod ready;

pub use ready::exported_lines_are_answers;
