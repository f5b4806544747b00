use pcj_encode::TaskName;
use pcj_term::Bytes;

/// A task in the hands of a worker.
#[derive(Drop)]
pub struct Task {
    /// What is to be done. The key of the task's row says it.
    pub name: TaskName,
    /// How far it is done: the last key that was dealt with, or nothing. It is the value of the task's row.
    pub cursor: Bytes,
    /// The timestamp at which the worker reads, and with which its transaction starts.
    pub start: u64,
}
