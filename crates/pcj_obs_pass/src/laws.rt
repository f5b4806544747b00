ghost use Rattle.pcj_obs_pass.specs.Laws.{AsksAreOne, CellsAreProjected};

/// The cells of a row, which are what a mapping gives the node's variables, give the parent's row what the mapping gives
/// the parent's variables, where each of these is one of the node's.
pub fn cells_are_projected()
    ensures { CellsAreProjected }
{}

/// For one task there is one next ask, by the tree and the answers.
pub fn asks_are_one()
    ensures { AsksAreOne }
{}
