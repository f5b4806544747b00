ghost use Rattle.pcj_moves.specs.RunLaws.{TransactionRuns, TransactionWaits};

/// Wherever a transaction is committed all its rows stand with one commit, and until then none does, with any moves of
/// any others between its own.
pub fn transactions_run_whole()
    ensures runs { TransactionRuns }
    ensures waits { TransactionWaits }
{}
