ghost use Rattle.pcj_tree.specs.Laws.{ReadsBack, StoresOneTree, CanBeStored};
ghost use Rattle.pcj_tree.specs.Meaning.{NodesMeanParts};
ghost use Rattle.pcj_tree.specs.Rows.{HaveOneRowEach, LastRowsAreProjected};

/// What is stored of a tree is read as that tree, and no two trees have one stored form.
pub fn one_stored_form()
    ensures back { ReadsBack }
    ensures one { StoresOneTree }
{}

/// The tree of a query of valid terms can be stored.
pub fn trees_can_be_stored()
    ensures { CanBeStored }
{}

/// Each node of a query's tree is for a part of the query: over all triples, what the node says by its kind and its children are
/// the solutions of that part.
pub fn nodes_mean_their_parts()
    ensures { NodesMeanParts }
{}

/// A node for a part has a row for each of the part's solutions, and the last node has the rows of the answer, or the keys of its
/// groups.
pub fn rows_are_solutions()
    ensures each { HaveOneRowEach }
    ensures last { LastRowsAreProjected }
{}
