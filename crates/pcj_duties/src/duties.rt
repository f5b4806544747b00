ghost use Rattle.pcj_duties.specs.Laws.{PurposesArePlans};

/// What a worker does for a task is what any worker may write: each name that it writes comes from a row that it has read.
pub fn purposes_are_plans()
    ensures { PurposesArePlans }
{}
