ghost use Rattle.pcj_plans.specs.Laws.{PassesArePurposes, PatternsArePurposes};

/// Where an actor has carried out the asks of a task's plan, the transaction that ends the plan is one that a worker may commit.
pub fn plans_are_purposes()
    ensures patterns { PatternsArePurposes }
    ensures passes { PassesArePurposes }
{}
