use std::fmt;

/// The tables in memory that are measured.
#[derive(Clone, Copy)]
pub enum Engine {
    /// A vector of rows.
    Vector,
    /// Pages of at most 64 rows.
    Pages,
}

impl Engine {
    /// The table of a name: a vector only where it is named so.
    pub fn named(name: &str) -> Engine {
        match name {
            "vector" => Engine::Vector,
            _ => Engine::Pages,
        }
    }
}

impl fmt::Display for Engine {
    fn fmt<W: fmt::Write>(&self, f: &mut fmt::Formatter<W>) -> fmt::Result {
        f.write_str(match self {
            Engine::Vector => "vector",
            Engine::Pages => "pages",
        })
    }
}
