ghost use Rattle.pcj_moves.specs.ChoiceLaws.{UnlockRipe, PrewriteRipe, PrimaryRipe, DrawRipe, ReadsUnderChoice, NumbersStay};

/// After an act nothing may be committed next that couldn't be before it, and after a draw its transaction alone.
pub fn ripe_transactions_were_ripe()
    ensures unlock { UnlockRipe }
    ensures prewrite { PrewriteRipe }
    ensures primary { PrimaryRipe }
    ensures draw { DrawRipe }
{}

/// What was read is so whichever of the transactions that may be committed next are committed.
pub fn reads_stand_under_choices()
    ensures choice { ReadsUnderChoice }
    ensures numbers { NumbersStay }
{}
