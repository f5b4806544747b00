ghost use Rattle.pcj_ready.specs.Laws.{ExportedLinesAreTrue, QuietLinesAreAll};

/// Each exported line of a registered query of one pattern is a line of its answer over the triples of the table, and where no task
/// stands each line of the answer is exported.
pub fn exported_lines_are_answers()
    ensures sound { ExportedLinesAreTrue }
    ensures quiet { QuietLinesAreAll }
{}
