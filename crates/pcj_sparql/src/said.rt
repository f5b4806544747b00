ghost use Rattle.std.specs.Prelude.{◌≡◌};
ghost use Rattle.pcj_sparql.specs.Query.{is_variable};
ghost use Rattle.pcj_sparql.specs.Listing.{said_token, said_use};

use pcj_grammar::{Lexeme, Terminal};

/// An item of SELECT (SPARQL 1.1 Query, section 19.8, production 9).
#[derive(Clone, Copy)]
pub(crate) enum Said {
    /// A variable.
    Plain(Lexeme),
    /// An aggregate of a variable or of `*`, under another name.
    Aggregate {
        function: Terminal,
        distinct: bool,
        argument: Lexeme,
        name: Lexeme,
    },
}

impl Said {
    pub(crate) fn is_plain(&self) -> bool
        ensures { result ≡ is_variable self.now }
    {
        matches!(self, Said::Plain(_))
    }

    /// The variable that has its value.
    pub(crate) fn name(&self) -> Lexeme
        ensures { result ≡ said_token self.now }
    {
        match self {
            Said::Plain(lexeme) => *lexeme,
            Said::Aggregate { name, .. } => *name,
        }
    }

    /// What its value comes from.
    pub(crate) fn source(&self) -> Lexeme
        ensures { result ≡ said_use self.now }
    {
        match self {
            Said::Plain(lexeme) => *lexeme,
            Said::Aggregate { argument, .. } => *argument,
        }
    }
}
