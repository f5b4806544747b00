ghost use Rattle.pcj_asks.specs.Laws.{CursorsStayInOrder, EmptyIsInOrder, PassesGoOn, PatternsGoOn, ReadingsSayOrder, RegistrationsAreRead};

/// After all that a worker was told of its plan's asks there is a next one.
pub fn workers_go_on()
    ensures patterns { PatternsGoOn }
    ensures passes { PassesGoOn }
    ensures registrations { RegistrationsAreRead }
{}

/// The cursors of backfills stand in the order that serves their patterns: each commit leaves it so, whatever its actor is at work for, and no other
/// move has to be looked at.
pub fn commits_keep_order()
    ensures commits { CursorsStayInOrder }
    ensures readings { ReadingsSayOrder }
    ensures empty { EmptyIsInOrder }
{}
