/// What a step of a job came to.
#[derive(Clone, Copy, PartialEq, Eq)]
pub enum JobEvent {
    /// The job goes on.
    Worked,
    /// What the job writes stands from this timestamp on.
    Committed(u64),
    /// All is written, and the job has ended.
    Done,
    /// Another transaction was in the way, and the job has ended without a commit.
    Aborted,
    /// The name was taken before, and the job has ended.
    Taken,
}
