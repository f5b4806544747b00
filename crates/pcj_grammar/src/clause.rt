ghost use Rattle.std.specs.Prelude.{◌≡◌};
ghost use Rattle.pcj_grammar.specs.Reading.{clause_next, from_prologue, from_select, from_first_item, from_items, from_after_where, from_keys, may_end};

use crate::symbol::Symbol;
use crate::terminal::Terminal;

/// What is still to come of a query, outside groups and items that have begun.
#[derive(Clone, Copy)]
pub(crate) enum Clause {
    /// All of it, or declarations and the rest.
    Prologue,
    /// What follows `SELECT`.
    AfterSelect,
    /// The first item, and the rest.
    FirstItem,
    /// Further items, and the rest.
    Items,
    /// What follows the group.
    AfterGroup,
    /// Further variables of `GROUP BY`.
    Keys,
}

/// What is still to come after one more token: a part, if any, and then the clause.
#[derive(Clone, Copy)]
pub(crate) struct ClauseMove {
    pub(crate) inner: Option<Symbol>,
    pub(crate) clause: Clause,
}

impl Clause {
    /// What is still to come after one more token, or `None` where it may not stand there.
    pub(crate) fn next(self, terminal: Terminal) -> Option<ClauseMove>
        ensures { result ≡ clause_next self terminal }
    {
        match self {
            Clause::Prologue => from_prologue(terminal),
            Clause::AfterSelect => from_select(terminal),
            Clause::FirstItem => from_first_item(terminal),
            Clause::Items => from_items(terminal),
            Clause::AfterGroup => from_after_where(terminal),
            Clause::Keys => from_keys(terminal),
        }
    }

    /// Whether nothing need follow.
    pub(crate) fn may_end(self) -> bool
        ensures { result ≡ may_end self }
    {
        matches!(self, Clause::AfterGroup | Clause::Keys)
    }
}

fn from_prologue(terminal: Terminal) -> Option<ClauseMove>
    ensures { result ≡ from_prologue terminal }
{
    match terminal {
        Terminal::Prefix => Some(ClauseMove {
            inner: Some(Symbol::Namespace),
            clause: Clause::Prologue,
        }),
        Terminal::Select => Some(ClauseMove {
            inner: None,
            clause: Clause::AfterSelect,
        }),
        _ => None,
    }
}

fn from_select(terminal: Terminal) -> Option<ClauseMove>
    ensures { result ≡ from_select terminal }
{
    match terminal {
        Terminal::Distinct => Some(ClauseMove {
            inner: None,
            clause: Clause::FirstItem,
        }),
        _ => from_first_item(terminal),
    }
}

fn from_first_item(terminal: Terminal) -> Option<ClauseMove>
    ensures { result ≡ from_first_item terminal }
{
    match terminal {
        Terminal::Var => Some(ClauseMove {
            inner: None,
            clause: Clause::Items,
        }),
        Terminal::OpenParen => Some(ClauseMove {
            inner: Some(Symbol::Function),
            clause: Clause::Items,
        }),
        _ => None,
    }
}

fn from_items(terminal: Terminal) -> Option<ClauseMove>
    ensures { result ≡ from_items terminal }
{
    match terminal {
        Terminal::Where => Some(ClauseMove {
            inner: Some(Symbol::Group),
            clause: Clause::AfterGroup,
        }),
        Terminal::OpenBrace => Some(ClauseMove {
            inner: Some(Symbol::Body),
            clause: Clause::AfterGroup,
        }),
        _ => from_first_item(terminal),
    }
}

fn from_after_where(terminal: Terminal) -> Option<ClauseMove>
    ensures { result ≡ from_after_where terminal }
{
    match terminal {
        Terminal::Group => Some(ClauseMove {
            inner: Some(Symbol::By),
            clause: Clause::Keys,
        }),
        _ => None,
    }
}

fn from_keys(terminal: Terminal) -> Option<ClauseMove>
    ensures { result ≡ from_keys terminal }
{
    match terminal {
        Terminal::Var => Some(ClauseMove {
            inner: None,
            clause: Clause::Keys,
        }),
        _ => None,
    }
}
