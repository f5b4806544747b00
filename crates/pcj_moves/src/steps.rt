ghost use Rattle.pcj_moves.specs.StepLaws.{RollBackUnlocks, RollForwardUnlocks, SecondaryUnlocks, UnlockStep, PrewriteStep, PrimaryStep, EmptyStep, RecoveryRollsBack, RecoveryDropsPrimary, RecoveryRollsForward, StayStep, DrawStep, AnswerStep, RecoveryStep, RecoveryBegins, RecoveryLearns, DropTells, BeginStep, WritesStep};

/// A roll back, a roll forward and the commit of a row that isn't the primary's take a lock away and change no
/// reading.
pub fn acts_take_locks_away()
    ensures back { RollBackUnlocks }
    ensures forward { RollForwardUnlocks }
    ensures secondary { SecondaryUnlocks }
    ensures rolls_back { RecoveryRollsBack }
    ensures drops { RecoveryDropsPrimary }
    ensures rolls_forward { RecoveryRollsForward }
{}

/// A step of one actor that changes a row keeps what is said of all.
pub fn steps_keep_actors_sound()
    ensures unlock { UnlockStep }
    ensures prewrite { PrewriteStep }
    ensures primary { PrimaryStep }
    ensures stay { StayStep }
{}

/// What an actor draws, reads and learns keeps what is said of all.
pub fn actors_go_on()
    ensures draw { DrawStep }
    ensures empty { EmptyStep }
    ensures answer { AnswerStep }
    ensures recovery { RecoveryStep }
    ensures begins { RecoveryBegins }
    ensures learns { RecoveryLearns }
    ensures drop { DropTells }
{}

/// An actor begins, and gets its writes.
pub fn actors_begin()
    ensures begin { BeginStep }
    ensures writes { WritesStep }
{}
