ghost use Rattle.pcj_rows.specs.Laws.{RowsAreOfNames, TablesHaveTriples};

/// In rows that decode each name has a row of its own, and a table of such rows a list of its triples.
pub fn rows_decode()
    ensures names { RowsAreOfNames }
    ensures triples { TablesHaveTriples }
{}
