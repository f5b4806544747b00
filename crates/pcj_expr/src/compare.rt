ghost use Rattle.std.specs.Prelude.{◌≡◌};
ghost use Rattle.std.specs.Option.{option_copied};
ghost use Rattle.pcj_expr.specs.Compare.{equal, less, comparison, string_text, is_literal, same_or_unknown};
ghost use Rattle.pcj_expr.specs.Truth.{comparison_of};

use crate::Truth;
use pcj_term::{Bytes, Kind, Memory, Term, TryClone, integer_of};
use std::alloc::Global;

/// How two values are compared (SPARQL 1.1 Query, section 17.3).
#[derive(Clone, Copy, PartialEq, Eq)]
pub enum Compare {
    /// `=`
    Eq,
    /// `!=`
    Ne,
    /// `<`
    Lt,
    /// `>`
    Gt,
    /// `<=`
    Le,
    /// `>=`
    Ge,
}

impl TryClone for Compare {
    fn try_clone(&self, _alloc: Global) -> Result<Compare, Memory> {
        Ok(*self)
    }
}

impl Compare {
    /// What the comparison says of two terms, or of a variable that is unbound.
    pub(crate) fn test(self, left: Option<&Term>, right: Option<&Term>) -> Truth
        ensures { result ≡ comparison_of self (option_copied left.entry) (option_copied right.entry) }
    {
        match (left, right) {
            (Some(left), Some(right)) => self.of_terms(left, right),
            _ => Truth::Error,
        }
    }

    fn of_terms(self, left: &Term, right: &Term) -> Truth
        ensures { result ≡ comparison self left.now right.now }
    {
        match self {
            Compare::Eq => equal(left, right),
            Compare::Ne => equal(left, right).not(),
            Compare::Lt => less(left, right),
            Compare::Gt => less(right, left),
            Compare::Le => less(right, left).not(),
            Compare::Ge => less(left, right).not(),
        }
    }
}

/// `=`: of integers by their values, of strings by their texts.
fn equal(left: &Term, right: &Term) -> Truth
    ensures { result ≡ equal left.now right.now }
{
    if let (Some(left), Some(right)) = (integer_of(left), integer_of(right)) {
        return Truth::when(left == right);
    }
    if let (Some(left), Some(right)) = (string_text(left), string_text(right)) {
        return Truth::when(left == right);
    }
    same_or_unknown(left, right)
}

/// `=` of terms that aren't compared by value: of two literals that differ nothing is known.
fn same_or_unknown(left: &Term, right: &Term) -> Truth
    ensures { result ≡ same_or_unknown left.now right.now }
{
    if left == right {
        Truth::True
    } else if is_literal(left) && is_literal(right) {
        Truth::Error
    } else {
        Truth::False
    }
}

/// `<`: of integers by their values, of strings by their code points, which is by their bytes in UTF-8.
fn less(left: &Term, right: &Term) -> Truth
    ensures { result ≡ less left.now right.now }
{
    if let (Some(left), Some(right)) = (integer_of(left), integer_of(right)) {
        return Truth::when(left < right);
    }
    if let (Some(left), Some(right)) = (string_text(left), string_text(right)) {
        return Truth::when(left.cmp(right).is_lt());
    }
    Truth::Error
}

/// The text of an xsd:string.
fn string_text(term: &Term) -> Option<&Bytes>
    ensures { option_copied result ≡ string_text term.now }
{
    match term {
        Term::Literal {
            text,
            kind: Kind::Plain,
        } => Some(text),
        _ => None,
    }
}

fn is_literal(term: &Term) -> bool
    ensures { result ≡ is_literal term.now }
{
    matches!(term, Term::Literal { .. })
}
