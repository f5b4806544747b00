//! What holds whichever of the transactions that may be committed next are committed, and how each move of an actor
//! keeps it.
//!
//! A transaction may be committed next from the draw of its commit on, while its primary's lock stands; then nothing but
//! that one commit is left to decide. So what holds of the rows has to hold under each choice of such transactions
//! beforehand. A choice is a function from primaries to commits. The rows under it are those of a state that a run of
//! commits leaves, with other actors in it: so whatever is true of an act in any state is true of it under each choice.
#![tactic(auto)]

mod choices;

pub use choices::{acts_stay_under_choices, choices_stand, tests_stay_passed};
