ghost use Rattle.std.specs.Prelude.{◌≡◌};
ghost use Rattle.pcj_ntriples.specs.Term.{takes_nodes, takes_literals, expected_at};

use crate::kind::NtKind;

/// A term's place in its triple.
#[derive(Clone, Copy)]
pub(crate) enum Place {
    Subject,
    Predicate,
    Object,
}

impl Place {
    /// Whether a blank node may stand there.
    pub(crate) fn takes_nodes(self) -> bool
        ensures { result ≡ takes_nodes self }
    {
        match self {
            Place::Subject | Place::Object => true,
            Place::Predicate => false,
        }
    }

    /// Whether a literal may stand there.
    pub(crate) fn takes_literals(self) -> bool
        ensures { result ≡ takes_literals self }
    {
        match self {
            Place::Subject | Place::Predicate => false,
            Place::Object => true,
        }
    }

    /// What is wrong where no such term begins.
    pub(crate) fn expected(self) -> NtKind
        ensures { result ≡ expected_at self }
    {
        match self {
            Place::Subject => NtKind::SubjectExpected,
            Place::Predicate => NtKind::PredicateExpected,
            Place::Object => NtKind::ObjectExpected,
        }
    }
}
