ghost use Rattle.pcj_pending.specs.Laws.{MovesAddAtMost, MovesCountLocks, QuietTablesHaveNothing, StepsAddAtMost};

/// A table is quiet exactly where no row has a lock, and the newest version of no task is a put.
pub fn quiet_tables_have_nothing_pending()
    ensures { QuietTablesHaveNothing }
{}

/// A prewrite adds one lock and one notification at most, and no other move adds any.
pub fn moves_add_one_at_most()
    ensures one { MovesAddAtMost }
    ensures several { StepsAddAtMost }
{}

/// A prewrite sets one lock. The commit of a row takes one away, and so does each act of a recovery.
pub fn moves_set_and_free_locks()
    ensures { MovesCountLocks }
{}
