ghost use Rattle.std.specs.Prelude.{◌≡◌, map, IfOk};
ghost use Rattle.pcj_sparql.specs.Query.{is_name_token, is_iri_token, is_relative, relative, too_large};
ghost use Rattle.pcj_translate.specs.Places.{lowest_of};
ghost use Rattle.pcj_translate.specs.Reading.{scope_by};
ghost use Rattle.pcj_sparql.specs.Reading.{iri_of, failed_at, is_undeclared, undeclared_among, is_relative_token, relative_among};
ghost use Rattle.pcj_sparql.specs.Clauses.{parts_in, HasFault};

use crate::clauses::Clauses;
use crate::declared::Declared;
use crate::error::QueryError;
use crate::kind::QueryKind;
use crate::sizes::is_large;
use pcj_grammar::{Lexeme, Terminal};
use pcj_groups::group_faults;
use pcj_term::{Bytes, Items, Memory, is_absolute};
use pcj_translate::{Prefixes, lower, lower_of};
use std::alloc::Global;

fn is_name_token(terminal: Terminal) -> bool
    ensures { result ≡ is_name_token terminal }
{
    matches!(terminal, Terminal::Namespace | Terminal::Name)
}

fn is_iri_token(terminal: Terminal) -> bool
    ensures { result ≡ is_iri_token terminal }
{
    matches!(
        terminal,
        Terminal::Iri | Terminal::Namespace | Terminal::Name
    )
}

fn is_relative(iri: &Option<Bytes>) -> bool
    ensures { result ≡ is_relative iri.now }
{
    match iri {
        None => false,
        Some(iri) => !is_absolute(iri.as_slice()),
    }
}

/// Whether a token is a prefixed name whose prefix isn't declared.
fn is_undeclared(
    alloc: Global,
    prefixes: &Prefixes,
    text: &[u8],
    lexeme: Lexeme,
) -> Result<bool, Memory>
    ensures { IfOk result (λ is. is ≡ is_undeclared (scope_by text.now prefixes.now) lexeme) }
{
    if !is_name_token(lexeme.terminal) {
        return Ok(false);
    }
    let iri = prefixes.iri_of(alloc, text, lexeme)?;
    Ok(iri.is_none())
}

/// The lowest place of a prefixed name whose prefix isn't declared.
pub(crate) fn undeclared(
    alloc: Global,
    prefixes: &Prefixes,
    text: &[u8],
    lexemes: &[Lexeme],
) -> Result<Option<usize>, Memory>
    ensures { IfOk result (λ at. at ≡ lowest_of (undeclared_among (scope_by text.now prefixes.now) lexemes.now)) }
{
    let mut lowest = None;
    for lexeme in lexemes {
        if is_undeclared(alloc, prefixes, text, *lexeme)? {
            lowest = lower(lexeme.at, lowest);
        }
    }
    Ok(lowest)
}

/// Whether a token writes an IRI that isn't absolute.
fn is_relative_token(
    alloc: Global,
    prefixes: &Prefixes,
    text: &[u8],
    lexeme: Lexeme,
) -> Result<bool, Memory>
    ensures { IfOk result (λ is. is ≡ is_relative_token (scope_by text.now prefixes.now) lexeme) }
{
    if !is_iri_token(lexeme.terminal) {
        return Ok(false);
    }
    let iri = prefixes.iri_of(alloc, text, lexeme)?;
    Ok(is_relative(&iri))
}

/// The lowest place of an IRI that isn't absolute.
pub(crate) fn relative(
    alloc: Global,
    prefixes: &Prefixes,
    text: &[u8],
    lexemes: &[Lexeme],
) -> Result<Option<usize>, Memory>
    ensures { IfOk result (λ at. at ≡ lowest_of (relative_among (scope_by text.now prefixes.now) lexemes.now)) }
{
    let mut lowest = None;
    for lexeme in lexemes {
        if is_relative_token(alloc, prefixes, text, *lexeme)? {
            lowest = lower(lexeme.at, lowest);
        }
    }
    Ok(lowest)
}

/// The IRIs of some declarations.
fn iris_of(alloc: Global, declared: &[Declared]) -> Result<Items<Lexeme>, Memory>
    ensures { IfOk result (λ iris. iris ≡ map iri_of declared.now) }
{
    let mut iris = Items::new(alloc);
    for declaration in declared {
        iris.push(declaration.iri)?;
    }
    Ok(iris)
}

/// A check by the lowest place where it fails, or what comes behind it.
fn failed_at(
    kind: QueryKind,
    lowest: Option<usize>,
    later: Option<QueryError>,
) -> Option<QueryError>
    ensures { result ≡ failed_at kind lowest later }
{
    match lowest {
        None => later,
        Some(at) => Some(QueryError {
            at: at as u64,
            kind,
        }),
    }
}

impl<'t> Clauses<'t> {
    /// The lowest place of an IRI that isn't absolute, those of declarations among them.
    fn relative(&self, alloc: Global) -> Result<Option<usize>, Memory>
        ensures { IfOk result (λ at. at ≡ lowest_of (relative (parts_in self.now))) }
    {
        let iris = iris_of(alloc, self.head.declared.as_slice())?;
        let declared = relative(alloc, self.prefixes, self.text, iris.as_slice())?;
        let body = relative(alloc, self.prefixes, self.text, self.head.body)?;
        Ok(lower_of(declared, body))
    }

    /// The word SELECT, where the pattern passes a limit.
    fn too_large(&self, alloc: Global) -> Result<Option<usize>, Memory>
        ensures { IfOk result (λ at. at ≡ lowest_of (too_large (parts_in self.now))) }
    {
        if is_large(alloc, &self.pattern)? {
            Ok(Some(self.head.select.at))
        } else {
            Ok(None)
        }
    }

    /// The first check that fails, at its lowest place.
    pub(crate) fn fault(&self, alloc: Global) -> Result<Option<QueryError>, Memory>
        ensures { IfOk result (HasFault self.now) }
    {
        let (text, prefixes, head) = (self.text, self.prefixes, self.head);
        let undeclared = undeclared(alloc, prefixes, text, head.body)?;
        let relative = self.relative(alloc)?;
        let misshapen = self.misshapen(alloc)?;
        let unknown = self.unknown(alloc)?;
        let found = group_faults(alloc, text, prefixes, head.group)?;
        let too_large = self.too_large(alloc)?;
        let fault = failed_at(QueryKind::TooLarge, too_large, None);
        let fault = failed_at(QueryKind::UnionVariables, found.uneven, fault);
        let unknown = lower_of(unknown, found.unknown);
        let fault = failed_at(QueryKind::UnknownVariable, unknown, fault);
        let fault = failed_at(QueryKind::OutOfProfile, found.bare, fault);
        let fault = failed_at(QueryKind::OutOfProfile, misshapen, fault);
        let fault = failed_at(QueryKind::OutOfProfile, relative, fault);
        Ok(failed_at(QueryKind::UnknownPrefix, undeclared, fault))
    }
}
