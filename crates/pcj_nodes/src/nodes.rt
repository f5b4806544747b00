ghost use Rattle.pcj_nodes.specs.Laws.{CommitsKeepNodes};

/// Each commit keeps what is said of the rows of nodes, whatever its actor is at work for.
pub fn commits_keep_nodes()
    ensures { CommitsKeepNodes }
{}
