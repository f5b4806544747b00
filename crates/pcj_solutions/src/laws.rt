ghost use Rattle.pcj_solutions.specs.Solutions.{HasOneList};

/// The solutions of a pattern over a set of triples are one list.
pub fn solutions_are_one_list()
    ensures { HasOneList }
{}
