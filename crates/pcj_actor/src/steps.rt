ghost use Rattle.pcj_actor.specs.ActorLaws.{CarriedIsConsistent, CarriedLeavesRead};
ghost use Rattle.pcj_actor.specs.StepLaws.{TxnStepsAreMoves, RecoveryStepsAreMoves, ReadStepsAreMoves, TxnMeetsOthers};

/// Each step of a transaction, of a recovery and of a read is a move or two of its actor, which the rules allow. A lock
/// that is met is another's.
pub fn steps_are_moves()
    ensures txn { TxnStepsAreMoves }
    ensures recovery { RecoveryStepsAreMoves }
    ensures read { ReadStepsAreMoves }
    ensures met { TxnMeetsOthers }
{}

/// Whoever else is at work: a step of an actor leaves all as it has to be, and what anyone has read.
pub fn actors_keep_all()
    ensures consistent { CarriedIsConsistent }
    ensures read { CarriedLeavesRead }
{}
