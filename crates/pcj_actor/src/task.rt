use pcj_encode::KeyRange;
use pcj_table::Plain;
use pcj_term::Bytes;
use pcj_txn::Txn;

/// What an actor carries out.
#[derive(Drop)]
pub enum Task {
    /// Nothing.
    Rest,
    /// A read of the row of this key.
    Get(Bytes),
    /// A read of the first row of this range in which something is seen.
    Next(KeyRange),
    /// A write of this plain value on the row of this key.
    Put { key: Bytes, plain: Plain },
    /// This transaction.
    Write(Txn),
}
