/// What a page tells of its rows.
#[derive(Clone, Copy, PartialEq, Eq)]
pub struct PageView {
    /// How many rows it has, from 1 to 64.
    pub rows: u64,
    /// How many of them `count` counts.
    pub live: u64,
    /// How many of them have a lock.
    pub locks: u64,
    /// The greatest commit timestamp of their versions, or 0.
    pub newest: u64,
}
