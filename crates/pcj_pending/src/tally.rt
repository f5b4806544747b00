/// How much is pending in a table.
#[derive(Clone, Copy)]
pub struct Pending {
    /// The tasks that wait for a worker, or that a transaction has locked.
    pub notifications: u64,
    /// The rows of any kind that have a lock.
    pub locks: u64,
}
