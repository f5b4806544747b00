ghost use Rattle.pcj_notify.specs.Laws.{ReadsBack};

/// The key of a valid task's row is read as that task and no other, with the cursor and the start that are given.
pub fn tasks_are_read_back()
    ensures { ReadsBack }
{}
