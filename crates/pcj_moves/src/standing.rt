ghost use Rattle.pcj_moves.specs.StandingLaws.{NoneStands, AllStand, AllAreSeen, OneMoveChanges};

/// All rows of a transaction stand, with one commit, or none does.
pub fn all_rows_stand_or_none()
    ensures none { NoneStands }
    ensures all { AllStand }
    ensures seen { AllAreSeen }
{}

/// Only the commit of a primary changes what stands, and it does so for all rows of its transaction at once.
pub fn only_commits_change_what_stands()
    ensures { OneMoveChanges }
{}
