ghost use Rattle.pcj_rebuild.specs.Laws.{HaveOneTree, HaveOneQuery, HaveSameLines};

/// A tree is that of one query, but for the name behind AS: it is the tree of the query with an empty name too, two queries with
/// one tree differ in nothing else, and so their answers have the same lines over any triples.
pub fn trees_have_one_query()
    ensures unnamed { HaveOneTree }
    ensures one { HaveOneQuery }
    ensures lines { HaveSameLines }
{}
