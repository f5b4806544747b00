//! Tasks: what is still to be done for the registered queries, and what may be asked of the table to do it.
//!
//! Each row of a task is a notification (Percolator, OSDI 2010, section 2.4): whoever commits a triple or a registration
//! leaves one, and a worker carries it out later, beside all others. `read_task` says what the row is for. What a worker
//! does next is an `Ask`, and what that came to is an `Answer`; the plans of the kinds of tasks, which say what is asked
//! by the answers so far, are crates above.
#![tactic(auto)]

mod answer;
mod ask;
mod laws;
mod plan;
mod reading;
mod task;

pub use answer::Answer;
pub use ask::Ask;
pub use laws::tasks_are_read_back;
pub use plan::{task_key, with_result, with_row};
pub use reading::read_task;
pub use task::Task;
