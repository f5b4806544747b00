ghost use Rattle.pcj_algebra.specs.Match.{MatchesOnce};

/// A triple pattern matches a triple by one mapping at most.
pub fn matches_at_most_once()
    ensures { MatchesOnce }
{}
