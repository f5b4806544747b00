ghost use Rattle.pcj_export.specs.Laws.{AreOne, AreRowLines, MeetsValuesAlone};

/// What is asked for an export follows from the task, the tree and the answers so far.
pub fn asks_are_one()
    ensures { AreOne }
{}

/// The exported line of a row's cells is the line that the query's answer has for the row.
pub fn lines_are_row_lines()
    ensures { AreRowLines }
{}

/// Where the rows of a registration's exports have plain values alone, each row that is met gives a line.
pub fn plains_alone_are_met()
    ensures { MeetsValuesAlone }
{}
