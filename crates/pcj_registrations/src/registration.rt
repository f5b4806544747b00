use pcj_term::Bytes;
use pcj_tree::Tree;

/// A registered query, as a table has it.
#[derive(Drop)]
pub struct Registration {
    /// Its name.
    pub name: Bytes,
    /// The number of its registration.
    pub number: u64,
    /// The tree of the query.
    pub tree: Tree,
}
