ghost use Rattle.std.specs.Prelude.{◌≡◌};
ghost use Rattle.pcj_expr.specs.Compare.{truth_when, not_of};
ghost use Rattle.pcj_expr.specs.Truth.{or_of, and_of};

use pcj_term::{Memory, TryClone};
use std::alloc::Global;

/// What a condition says of a mapping (SPARQL 1.1 Query, section 17.2).
#[derive(Clone, Copy, PartialEq, Eq)]
pub enum Truth {
    /// It holds.
    True,
    /// It doesn't hold.
    False,
    /// It has no answer: a variable is unbound, or values can't be compared.
    Error,
}

impl TryClone for Truth {
    fn try_clone(&self, _alloc: Global) -> Result<Truth, Memory> {
        Ok(*self)
    }
}

impl Truth {
    /// What a test that has an answer says.
    pub(crate) fn when(holds: bool) -> Truth
        ensures { result ≡ truth_when holds }
    {
        if holds { Truth::True } else { Truth::False }
    }

    /// `||`: one that is true is enough, whatever the other is.
    pub(crate) fn or(self, other: Truth) -> Truth
        ensures { result ≡ or_of self other }
    {
        match (self, other) {
            (Truth::True, _) | (_, Truth::True) => Truth::True,
            (Truth::False, Truth::False) => Truth::False,
            _ => Truth::Error,
        }
    }

    /// `&&`: one that is false is enough, whatever the other is.
    pub(crate) fn and(self, other: Truth) -> Truth
        ensures { result ≡ and_of self other }
    {
        match (self, other) {
            (Truth::False, _) | (_, Truth::False) => Truth::False,
            (Truth::True, Truth::True) => Truth::True,
            _ => Truth::Error,
        }
    }

    /// `!`: an error stays one.
    pub(crate) fn not(self) -> Truth
        ensures { result ≡ not_of self }
    {
        match self {
            Truth::True => Truth::False,
            Truth::False => Truth::True,
            Truth::Error => Truth::Error,
        }
    }
}
