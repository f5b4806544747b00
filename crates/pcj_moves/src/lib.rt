//! What actors may do to the rows of a table beside one another, and what stays true of all of them whoever moves next.
//!
//! An actor holds its start, what it has read then, a transaction, and a recovery of a lock that it met: plain data,
//! as `Actor`, `Transaction`, `Recovery` and `Answer` of `specs/` have them. What rows have of one start is its trace,
//! and all that is said of a transaction or a recovery is said of traces. An act changes the trace of one start in
//! one row, so it leaves every other transaction and recovery as it was.
//!
//! The transactions are Percolator's (OSDI 2010, section 2.2). The laws of one act have that act in their premise,
//! and any list of other actors. Moves are data, with the rules that allow them; a run is a list of moves of any
//! actors, and what it keeps and changes is said of every run.
#![tactic(auto)]

mod actors;
mod answer;
mod choices;
mod moves;
mod reads;
mod runs;
mod standing;
mod steps;
mod traces;
mod writes;

pub use actors::{
    acts_leave_others, acts_leave_recoveries, acts_take_transactions_on, met_locks_are_of_others,
    writes_stay_hidden,
};
pub use answer::Answer;
pub use choices::{reads_stand_under_choices, ripe_transactions_were_ripe};
pub use moves::{actors_have_no_order, moves_keep_consistency};
pub use reads::{reads_meet_no_lock, reads_stay_true};
pub use runs::transactions_run_whole;
pub use standing::{all_rows_stand_or_none, only_commits_change_what_stands};
pub use steps::{actors_begin, actors_go_on, acts_take_locks_away, steps_keep_actors_sound};
pub use traces::{acts_change_one_trace, other_writes_leave_traces};
pub use writes::distinct_rows_are_new;
