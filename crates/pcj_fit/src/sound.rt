ghost use Rattle.pcj_fit.specs.Laws.{BackIsSound, BeginIsSound, ClockAloneIsFit, EndIsSound, FirstIsSound, FitGrows, FitIsSound, FoundAreThere, HigherIsSound, LoadsAddTriples, MoveIsSound, MovesLeaveTriples, SoundIsFit, StepAddsTriples, StepIsSound, StepLeavesTriples};

/// Every move of every actor, whoever the others are.
pub fn moves_keep_all_sound()
    ensures { MoveIsSound }
{}

/// Actors begin, end wherever they are, and have no order; numbers may be lost.
pub fn actors_come_and_go()
    ensures begins { BeginIsSound }
    ensures ends { EndIsSound }
    ensures higher { HigherIsSound }
    ensures first { FirstIsSound }
    ensures back { BackIsSound }
{}

/// A fit table is one that a run may begin with, and each that it leaves is fit.
pub fn fit_tables_are_sound()
    ensures sound { FitIsSound }
    ensures fit { SoundIsFit }
    ensures grows { FitGrows }
    ensures clock { ClockAloneIsFit }
{}

/// The commit of a load adds its triples, and nothing else changes those of the table.
pub fn loads_add_their_triples()
    ensures leave { MovesLeaveTriples }
    ensures add { LoadsAddTriples }
    ensures found { FoundAreThere }
{}

/// The moves of a step, one after the other.
pub fn steps_keep_all_sound()
    ensures sound { StepIsSound }
    ensures leave { StepLeavesTriples }
    ensures add { StepAddsTriples }
{}
