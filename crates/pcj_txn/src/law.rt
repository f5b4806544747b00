ghost use Rattle.pcj_txn.specs.Steps.{OneEvent};

/// What a step tells follows from what is due and from the row that it meets, so each event comes exactly where that row
/// allows it.
pub fn one_event_is_right()
    ensures { OneEvent }
{}
