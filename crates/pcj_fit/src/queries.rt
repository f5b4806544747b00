ghost use Rattle.pcj_fit.specs.QueryLaws.{LoadStepLeavesQueries, LoadsLeaveQueries, MovesLeaveQueries, NamesAreDistinct, QueriesAreOne, ReadNamesAreKnown, RegisterStepLeavesTriples, RegistrationsAddTheirs, RegistrationsLeaveTriples, StepAddsQuery, StepLeavesQueries, TablesHaveQueries};

/// Each fit table has one list of its queries.
pub fn tables_have_queries()
    ensures some { TablesHaveQueries }
    ensures one { QueriesAreOne }
{}

/// No two registrations have one name, and a name that was read is that of one of them.
pub fn names_are_distinct()
    ensures distinct { NamesAreDistinct }
    ensures known { ReadNamesAreKnown }
{}

/// The commit of a registration adds its query and leaves the triples, and nothing else changes the queries of the table.
pub fn registrations_add_their_queries()
    ensures leave { MovesLeaveQueries }
    ensures loads { LoadsLeaveQueries }
    ensures add { RegistrationsAddTheirs }
    ensures triples { RegistrationsLeaveTriples }
{}

/// The moves of a step, one after the other.
pub fn steps_add_queries()
    ensures leave { StepLeavesQueries }
    ensures loads { LoadStepLeavesQueries }
    ensures add { StepAddsQuery }
    ensures triples { RegisterStepLeavesTriples }
{}
