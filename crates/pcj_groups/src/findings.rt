ghost use Rattle.std.specs.Prelude.{◌≡◌, ◌++◌, filter, IfOk, OnOk};
ghost use Rattle.pcj_algebra.specs.declared.triple_pattern.TriplePattern.{TriplePattern};
ghost use Rattle.pcj_translate.specs.Names.{with_names};
ghost use Rattle.pcj_translate.specs.Places.{lowest_of};
ghost use Rattle.pcj_translate.specs.Reading.{scope_of_reader};
ghost use Rattle.pcj_translate.specs.Term.{variable_of};
ghost use Rattle.pcj_translate.specs.Uses.{unknown_among};
ghost use Rattle.pcj_translate.specs.Variables.{has_variable, slot_variables, triple_variables};
ghost use Rattle.pcj_groups.specs.Finding.{nothing, triples_variables, with_triples, with_uses, with_group, with_union, uneven_by, bare_by, closed, is_use};

use crate::faults::GroupFaults;
use pcj_algebra::{Slot, TriplePattern};
use pcj_grammar::{Lexeme, Terminal};
use pcj_term::{Bytes, Items, Memory};
use pcj_translate::{NameSet, Reader, behind_first, lower, lower_of, source_of};
use std::alloc::Global;

/// What a walk over a group has found.
#[derive(Drop)]
pub(crate) struct Findings {
    /// The variables of its triple patterns and of the groups inside it.
    pub(crate) names: NameSet,
    /// The variables of its own filters.
    uses: Items<Lexeme>,
    /// Whether it has neither triple pattern nor group.
    is_bare: bool,
    /// The faults of the groups inside it, and once it is closed its own.
    faults: GroupFaults,
}

impl Findings {
    /// Those of an empty group.
    pub(crate) fn new(alloc: Global) -> Findings
        ensures { result ≡ nothing }
    {
        Findings {
            names: NameSet::new(alloc),
            uses: Items::new(alloc),
            is_bare: true,
            faults: GroupFaults::none(),
        }
    }

    pub(crate) fn faults(&self) -> GroupFaults
        ensures { result ≡ self.now.faults }
    {
        self.faults
    }

    /// Adds triple patterns.
    pub(crate) fn add_triples(
        &mut self,
        alloc: Global,
        triples: &[TriplePattern],
    ) -> Result<(), Memory>
        ensures { OnOk result (self.new ≡ with_triples self.old triples.now) }
    {
        add_triples(alloc, &mut self.names, triples)?;
        self.is_bare = triples.is_empty() && self.is_bare;
        Ok(())
    }

    /// Adds the variables among the tokens of a filter.
    pub(crate) fn add_uses(&mut self, tokens: &[Lexeme]) -> Result<(), Memory>
        ensures { OnOk result (self.new ≡ with_uses self.old (filter is_use tokens.now)) }
    {
        add_variables(&mut self.uses, tokens)
    }

    /// Adds a group inside it.
    pub(crate) fn add_group(&mut self, alloc: Global, group: &Findings) -> Result<(), Memory>
        ensures { OnOk result (self.new ≡ with_group self.old group.now) }
    {
        self.names.add_all(alloc, &group.names)?;
        self.is_bare = false;
        self.faults = self.faults.lower_of(group.faults);
        Ok(())
    }

    /// Adds a group behind the word UNION at this place, whose first group has these names.
    pub(crate) fn add_union(
        &mut self,
        alloc: Global,
        first: &NameSet,
        place: usize,
        group: &Findings,
    ) -> Result<(), Memory>
        ensures { OnOk result (self.new ≡ with_union self.old first.now place group.now) }
    {
        self.add_group(alloc, group)?;
        self.faults.uneven = uneven_by(first.same(&group.names), place, self.faults.uneven);
        Ok(())
    }

    /// Ends the group, whose brace is at this place.
    pub(crate) fn close(
        &mut self,
        alloc: Global,
        reader: &Reader<'_>,
        place: usize,
    ) -> Result<(), Memory>
        ensures { OnOk result (self.new ≡ closed (scope_of_reader reader.now) place self.old) }
    {
        let unknown = unknown_among(alloc, reader, &self.names, self.uses.as_slice())?;
        self.faults.unknown = lower_of(self.faults.unknown, unknown);
        self.faults.bare = bare_by(self.is_bare, place, self.faults.bare);
        Ok(())
    }
}

fn uneven_by(same: bool, place: usize, uneven: Option<usize>) -> Option<usize>
    ensures { result ≡ uneven_by same place uneven }
{
    if same { uneven } else { lower(place, uneven) }
}

fn bare_by(is_bare: bool, place: usize, bare: Option<usize>) -> Option<usize>
    ensures { result ≡ bare_by is_bare place bare }
{
    if is_bare { lower(place, bare) } else { bare }
}

/// Adds the variable of a slot, where it has one.
fn add_slot(alloc: Global, names: &mut NameSet, slot: &Slot) -> Result<(), Memory>
    ensures { OnOk result (names.new ≡ with_names names.old (slot_variables slot.now)) }
{
    match slot {
        Slot::Var(name) => names.add(alloc, name.as_slice()),
        Slot::Value(_) => Ok(()),
    }
}

/// Adds the variables of a triple pattern.
fn add_triple(alloc: Global, names: &mut NameSet, triple: &TriplePattern) -> Result<(), Memory>
    ensures { OnOk result (names.new ≡ with_names names.old (triple_variables triple.now)) }
{
    add_slot(alloc, names, &triple.subject)?;
    add_slot(alloc, names, &triple.predicate)?;
    add_slot(alloc, names, &triple.object)
}

/// Adds the variables of triple patterns.
fn add_triples(alloc: Global, names: &mut NameSet, triples: &[TriplePattern]) -> Result<(), Memory>
    ensures { OnOk result (names.new ≡ with_names names.old (triples_variables triples.now)) }
{
    for triple in triples {
        add_triple(alloc, names, triple)?;
    }
    Ok(())
}

/// Adds the variables among some tokens.
fn add_variables(uses: &mut Items<Lexeme>, tokens: &[Lexeme]) -> Result<(), Memory>
    ensures { OnOk result (uses.new ≡ uses.old ++ filter is_use tokens.now) }
{
    for lexeme in tokens {
        if matches!(lexeme.terminal, Terminal::Var) {
            uses.push(*lexeme)?;
        }
    }
    Ok(())
}

/// Whether the variable of a token is among some names.
fn has_use(
    alloc: Global,
    reader: &Reader<'_>,
    names: &NameSet,
    lexeme: Lexeme,
) -> Result<bool, Memory>
    ensures { IfOk result (λ has. has ≡ has_variable names.now (variable_of (scope_of_reader reader.now) lexeme)) }
{
    let source = source_of(reader.text, lexeme);
    let name = Bytes::from_slice(alloc, behind_first(source))?;
    Ok(names.has(&name))
}

/// The lowest place of a variable that isn't among some names.
fn unknown_among(
    alloc: Global,
    reader: &Reader<'_>,
    names: &NameSet,
    uses: &[Lexeme],
) -> Result<Option<usize>, Memory>
    ensures { IfOk result (λ at. at ≡ lowest_of (unknown_among (scope_of_reader reader.now) names.now uses.now)) }
{
    let mut lowest = None;
    for lexeme in uses {
        if !has_use(alloc, reader, names, *lexeme)? {
            lowest = lower(lexeme.at, lowest);
        }
    }
    Ok(lowest)
}
