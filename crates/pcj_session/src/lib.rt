//! A session: the clients that are at work, the registered queries and the oracle, and what each command of a script comes to.
//!
//! `Session::answer` carries out one command over a table, whoever else is at work on it, and gives what is to be said of it.
//! What may be said is a relation, `Reply` of `pcj_model`, for every language that is SPARQL's; that there is one is proved
//! (`sparql_is_a_language`).
#![tactic(auto)]

mod laws;
mod observed;
mod registry;
mod reply;
mod session;
mod stop;

pub use laws::sparql_is_a_language;
pub use reply::Reply;
pub use session::Session;
pub use stop::Stop;
