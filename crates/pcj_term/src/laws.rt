ghost use Rattle.pcj_term.specs.Laws.{PrintsOneTerm, ReadsBack, PrintsOneCell};

/// No two valid terms have one printed form, `read_term` gives back the term that was printed, and no printed
/// form has a TAB or LF in it.
pub fn one_printed_form()
    ensures term { PrintsOneTerm }
    ensures back { ReadsBack }
    ensures cell { PrintsOneCell }
{}
