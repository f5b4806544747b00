ghost use Rattle.pcj_moves.specs.TraceLaws.{LockedTrace, PrewriteChanges, ReplaceChanges, RollBackChanges, RowStays, PlainStays};

/// Each act changes what one row has of one transaction, and nothing of any other.
pub fn acts_change_one_trace()
    ensures locked { LockedTrace }
    ensures prewrite { PrewriteChanges }
    ensures replace { ReplaceChanges }
    ensures roll_back { RollBackChanges }
{}

/// A draw and the write of a plain value change nothing of any transaction.
pub fn other_writes_leave_traces()
    ensures row { RowStays }
    ensures plain { PlainStays }
{}
