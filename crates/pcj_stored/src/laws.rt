ghost use Rattle.pcj_stored.specs.Laws.{QueriesCanBeStored, QueriesHaveFewNodes};

/// The tree of each text's query can be stored, and has 128 nodes at most.
pub fn queries_can_be_stored()
    ensures stored { QueriesCanBeStored }
    ensures nodes { QueriesHaveFewNodes }
{}
