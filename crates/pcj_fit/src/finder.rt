ghost use Rattle.pcj_fit.specs.FinderLaws.{FinderBegins, FinderStays, FindersLeaveEachOther};

/// Workers that look for a task and take locks away, each beside those that have numbers.
pub fn finders_leave_all_sound()
    ensures begins { FinderBegins }
    ensures stays { FinderStays }
    ensures leave { FindersLeaveEachOther }
{}
