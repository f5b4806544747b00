ghost use Rattle.pcj_moves.specs.MoveLaws.{ActorComesFirst, ActorGoesBack, EmptyIsConsistent, MoveIsConsistent, MovesAreConsistent, HigherIsConsistent, StepIsConsistent, RunIsConsistent};

/// Nothing that is said of actors depends on their order.
pub fn actors_have_no_order()
    ensures first { ActorComesFirst }
    ensures back { ActorGoesBack }
{}

/// Whoever moves next and however often, what the rules promise of all holds.
pub fn moves_keep_consistency()
    ensures empty { EmptyIsConsistent }
    ensures move_of_one { MoveIsConsistent }
    ensures moves { MovesAreConsistent }
    ensures higher { HigherIsConsistent }
    ensures step { StepIsConsistent }
    ensures run { RunIsConsistent }
{}
