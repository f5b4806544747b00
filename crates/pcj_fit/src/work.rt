ghost use Rattle.pcj_fit.specs.WorkLaws.{WorkLeavesQueries, WorkLeavesTriples, WorkStepLeavesQueries, WorkStepLeavesTriples};

/// Whatever workers commit, the triples and the registered queries stay.
pub fn workers_leave_triples_and_queries()
    ensures triples { WorkLeavesTriples }
    ensures queries { WorkLeavesQueries }
    ensures step_triples { WorkStepLeavesTriples }
    ensures step_queries { WorkStepLeavesQueries }
{}
