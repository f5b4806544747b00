ghost use Rattle.pcj_mvcc.specs.Laws.{ChangesOneRow, ActsOnOneRow, PrewriteKeeps, RollBackKeeps, RollForwardKeeps, CommitKeeps, PlainKeeps, PrimaryCommits, ReadingsDecide, CommitsStand, StandingIsSeen, ReadsAreSeen, PassedRowsShowNothing, PrewriteInOrder, ReplaceInOrder, RollBackInOrder, PlainInOrder, PrewriteNamesOne, ReplaceNamesOne, RollBackNamesOne, PlainNamesOne};
ghost use Rattle.pcj_mvcc.specs.Choices.{ChangeUnderChoice, ChosenIsCommitted, CommittedIsChosen};

/// An act that was applied has made its updates on its one row, and left all others as they were.
pub fn acts_change_one_row()
    ensures row { ChangesOneRow }
    ensures act { ActsOnOneRow }
{}

/// No act but the commit of a primary's row changes the reading of any row: the prewrite and the roll back of a
/// transaction that isn't committed, the roll forward or commit of another row of one that is, and the write of
/// a plain value.
pub fn other_acts_keep_readings()
    ensures prewrite { PrewriteKeeps }
    ensures roll_back { RollBackKeeps }
    ensures roll_forward { RollForwardKeeps }
    ensures commit { CommitKeeps }
    ensures plain { PlainKeeps }
{}

/// Where all rows are read as before, the same stands in each, and the same is seen at each time.
pub fn readings_decide_what_stands()
    ensures { ReadingsDecide }
{}

/// The commit of the primary's row makes all rows of its transaction stand at once, changes no other row, and
/// changes nothing that is seen before it.
pub fn commits_stand_at_once()
    ensures primary { PrimaryCommits }
    ensures stands { CommitsStand }
{}

/// What stands is seen from its commit on.
pub fn standing_puts_are_seen()
    ensures { StandingIsSeen }
{}

/// A read that meets no lock of its time or before gives what is seen, and where a walk passes over a row nothing
/// is seen.
pub fn reads_give_what_is_seen()
    ensures read { ReadsAreSeen }
    ensures passed { PassedRowsShowNothing }
{}

/// Each act keeps the order of timestamps: versions ascend, a lock started after them, and a commit is above its
/// start.
pub fn acts_keep_times_in_order()
    ensures prewrite { PrewriteInOrder }
    ensures replace { ReplaceInOrder }
    ensures roll_back { RollBackInOrder }
    ensures plain { PlainInOrder }
{}

/// Where all locks of one start name one primary, they still do after each act.
pub fn locks_name_one_primary()
    ensures prewrite { PrewriteNamesOne }
    ensures replace { ReplaceNamesOne }
    ensures roll_back { RollBackNamesOne }
    ensures plain { PlainNamesOne }
{}

/// The rows in which some transactions are committed are made from the rows by their commits, one by one in any
/// order, before or after a change of another row.
pub fn choices_commit_one_by_one()
    ensures change { ChangeUnderChoice }
    ensures chosen { ChosenIsCommitted }
    ensures committed { CommittedIsChosen }
{}
