ghost use Rattle.pcj_sparql.specs.Query.{SaysOneQuery, HasOneFault, IsNotBoth, IsEither};

/// Each text is that of one query, or has one fault, and never both.
pub fn one_query()
    ensures query { SaysOneQuery }
    ensures fault { HasOneFault }
    ensures apart { IsNotBoth }
    ensures some { IsEither }
{}
