use pcj_recover::RecoveryEvent;
use pcj_txn::TxnEvent;

/// What a step of an actor came to.
#[derive(Drop)]
pub enum ActorEvent {
    /// There is nothing to carry out.
    Rests,
    /// The read is done, and its answer is the actor's last.
    Answered,
    /// The row that was to be read or locked has a lock of another transaction, which the next steps take away.
    Met,
    /// A step was made to take a lock away.
    Recovers(RecoveryEvent),
    /// The plain value is written, or else one of its number or a later one stands.
    Put { applied: bool },
    /// A step of the transaction.
    Writes(TxnEvent),
}
