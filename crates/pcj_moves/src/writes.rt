ghost use Rattle.pcj_moves.specs.WriteLaws.{DistinctAreNew, DistinctAreThere, DistinctAreSecondary, NextIsNew, UndrawnIsUndone};

/// Where the rows that a transaction writes are distinct, each row to be prewritten is new, and each further row that
/// it commits isn't the primary's.
pub fn distinct_rows_are_new()
    ensures new { DistinctAreNew }
    ensures there { DistinctAreThere }
    ensures secondary { DistinctAreSecondary }
    ensures next { NextIsNew }
    ensures undone { UndrawnIsUndone }
{}
