/// The numbers that were taken from the table and aren't granted yet.
#[derive(Clone, Copy)]
pub struct Block {
    /// The number that is granted next.
    pub next: u64,
    /// The first number that wasn't taken.
    pub limit: u64,
}
