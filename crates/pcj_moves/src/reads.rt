ghost use Rattle.pcj_moves.specs.ReadLaws.{RowIsRead, EmptyRangeIsRead, NextRowIsRead, AnswerStaysRead, NothingStaysRead, HeldStaysRead, MoveLeavesRead, MovesLeaveRead, RunLeavesRead};

/// A read that meets no lock of its time gives what is seen then: of a row, and of all rows up to the first one between
/// two keys in which something is.
pub fn reads_meet_no_lock()
    ensures row { RowIsRead }
    ensures none { EmptyRangeIsRead }
    ensures next { NextRowIsRead }
{}

/// What was read at a time stays what is seen there, whoever moves next and however often.
pub fn reads_stay_true()
    ensures answer { AnswerStaysRead }
    ensures nothing { NothingStaysRead }
    ensures held { HeldStaysRead }
    ensures move_of_one { MoveLeavesRead }
    ensures moves { MovesLeaveRead }
    ensures run { RunLeavesRead }
{}
