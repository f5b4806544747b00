ghost use Rattle.std.specs.Prelude.{◌≡◌};
ghost use Rattle.pcj_sparql.specs.declared.error.QueryRefusal.TheVariants as refusals;

use crate::kind::QueryKind;

/// A text that is refused.
#[derive(Clone, Copy, PartialEq, Eq)]
pub struct QueryError {
    /// The place of the byte.
    pub at: u64,
    /// Why.
    pub kind: QueryKind,
}

/// Why no query is given.
#[derive(Clone, Copy, PartialEq, Eq)]
pub enum QueryRefusal {
    /// The text is no query's.
    Refused(QueryError),
    /// There was no memory left, which says nothing of the text.
    Memory,
}

impl From<pcj_term::Memory> for QueryRefusal {
    ghost from_gives = { λ _ refusal. refusal ≡ refusals.Memory };

    fn from(_memory: pcj_term::Memory) -> QueryRefusal {
        QueryRefusal::Memory
    }
}
