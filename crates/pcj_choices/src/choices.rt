ghost use Rattle.pcj_choices.specs.ChoiceLaws.{ActsLeaveRipe, ActsUnderChoice, ChoicesStand, TestsStayPassed};

/// The rows under each choice are those of a state as any actors may leave it.
pub fn choices_stand()
    ensures { ChoicesStand }
{}

/// An act on a row may be carried out before a choice or after it, and lets nothing be committed next that couldn't be
/// before.
pub fn acts_stay_under_choices()
    ensures acts { ActsUnderChoice }
    ensures ripe { ActsLeaveRipe }
{}

/// What is read under each choice stays as it has to be, if the last commit leaves it so.
pub fn tests_stay_passed()
    ensures { TestsStayPassed }
{}
