use pcj_encode::KeyRange;
use pcj_table::Write;
use pcj_term::{Bytes, Items};

/// What is asked of the table next to carry a task out.
#[derive(Drop)]
pub enum Ask {
    /// The value that the row of this key has at the task's start.
    Get(Bytes),
    /// The row with the least key in this range that has a value at the task's start.
    Next(KeyRange),
    /// A write of this plain value, with the task's start as its number, on the row of this key, where none of that
    /// number or a later one stands.
    Plain { key: Bytes, value: Bytes },
    /// One transaction of these writes, the first of them on the task's own row. Nothing is asked after it.
    Commit(Items<Write>),
}
