//! What holds of a table wherever the program was stopped and whoever was at work on it, and what every move keeps of it.
#![tactic(auto)]

mod finder;
mod queries;
mod sound;
mod work;

pub use finder::finders_leave_all_sound;
pub use queries::{
    names_are_distinct, registrations_add_their_queries, steps_add_queries, tables_have_queries,
};
pub use sound::{
    actors_come_and_go, fit_tables_are_sound, loads_add_their_triples, moves_keep_all_sound,
    steps_keep_all_sound,
};
pub use work::workers_leave_triples_and_queries;
