use pcj_table::Pair;
use pcj_term::Bytes;

/// What an ask came to. None is told of `Commit`, which is the last.
#[derive(Drop)]
pub enum Answer {
    /// Of `Get`: the row's value, or that it has none.
    Got(Option<Bytes>),
    /// Of `Next`: the row's key and value, or that no row of the range has one.
    Stepped(Option<Pair>),
    /// Of `Plain`: the value is written, or else one of its number or a later one stands.
    PlainDone,
}
