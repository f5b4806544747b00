ghost use Rattle.pcj_patterns.specs.Laws.{MatchesAreInRange, RangesHoldConstants};

/// Every triple that matches a pattern has its row in the pattern's order in the pattern's range, and of the rows of all
/// valid names the range holds exactly those, in that order, of the triples that have the pattern's constants.
pub fn ranges_hold_matches()
    ensures matches { MatchesAreInRange }
    ensures constants { RangesHoldConstants }
{}
