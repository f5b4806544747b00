ghost use Rattle.pcj_kept.specs.Laws.{CommitsKeepAll, EmptyIsKept, ExportsKeepAll, ReadingsSayAll};

/// Each commit keeps all, whatever its actor is at work for, and so does each line that is exported; no other move has to be looked at.
pub fn commits_keep_all()
    ensures commits { CommitsKeepAll }
    ensures exports { ExportsKeepAll }
    ensures readings { ReadingsSayAll }
    ensures empty { EmptyIsKept }
{}
