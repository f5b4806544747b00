ghost use Rattle.pcj_obs_pattern.specs.Laws.{AsksAreOne};

/// After the same answers no two asks are next for one task: the plan is a function of the task and of the answers.
pub fn asks_are_one()
    ensures { AsksAreOne }
{}
