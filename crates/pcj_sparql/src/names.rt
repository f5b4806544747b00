ghost use Rattle.std.specs.Prelude.{◌≡◌, map, IfOk};
ghost use Rattle.std.specs.List.{list_all};
ghost use Rattle.pcj_translate.specs.Names.{IsSetOf};
ghost use Rattle.pcj_translate.specs.Variables.{has_variable, variables_in};
ghost use Rattle.pcj_sparql.specs.Query.{are_distinct, same_names};
ghost use Rattle.pcj_sparql.specs.Listing.{name_in, said_name_in};

use crate::said::Said;
use pcj_algebra::Pattern;
use pcj_grammar::Lexeme;
use pcj_term::{Bytes, Items, Memory};
use pcj_translate::{NameSet, behind_first, source_of};
use sqlite_items::Boxed;
use std::alloc::Global;

/// A variable's name, without its sign.
pub(crate) fn name_in(text: &[u8], lexeme: Lexeme) -> &[u8]
    ensures { result.now ≡ name_in text.now lexeme }
{
    behind_first(source_of(text, lexeme))
}

/// The names of some variables.
pub(crate) fn names_of(
    alloc: Global,
    text: &[u8],
    lexemes: &[Lexeme],
) -> Result<Items<Bytes>, Memory>
    ensures { IfOk result (λ names. names ≡ map (name_in text.now) lexemes.now) }
{
    let mut names = Items::new(alloc);
    for lexeme in lexemes {
        names.push(Bytes::from_slice(alloc, name_in(text, *lexeme))?)?;
    }
    Ok(names)
}

/// The names that some items give to what they say.
pub(crate) fn item_names(alloc: Global, text: &[u8], items: &[Said]) -> Result<Items<Bytes>, Memory>
    ensures { IfOk result (λ names. names ≡ map (said_name_in text.now) items.now) }
{
    let mut names = Items::new(alloc);
    for said in items {
        names.push(Bytes::from_slice(alloc, name_in(text, said.name()))?)?;
    }
    Ok(names)
}

/// The set of some names.
pub(crate) fn set_of(alloc: Global, names: &[Bytes]) -> Result<NameSet, Memory>
    ensures { IfOk result (λ set. IsSetOf names.now set) }
{
    let mut set = NameSet::new(alloc);
    for name in names {
        set.add(alloc, name.as_slice())?;
    }
    Ok(set)
}

/// The names of a pattern's variables.
pub(crate) fn pattern_names(
    alloc: Global,
    pattern: &Option<Boxed<Pattern>>,
) -> Result<NameSet, Memory>
    ensures { IfOk result (λ set. IsSetOf (variables_in pattern.now) set) }
{
    let mut set = NameSet::new(alloc);
    match pattern {
        None => Ok(set),
        Some(pattern) => {
            set.add_pattern(alloc, pattern.get())?;
            Ok(set)
        }
    }
}

/// Whether no name stands twice.
pub(crate) fn are_distinct(alloc: Global, names: &[Bytes]) -> Result<bool, Memory>
    ensures { IfOk result (λ are. are ≡ are_distinct names.now) }
{
    let set = set_of(alloc, names)?;
    Ok(set.len() == names.len())
}

/// Whether all of them are in the set.
fn all_among(names: &[Bytes], set: &NameSet) -> bool
    ensures { result ≡ list_all (has_variable set.now) names.now }
{
    names.iter().all(|name| set.has(name))
}

/// Whether the same names stand in both lists.
pub(crate) fn same_names(alloc: Global, names: &[Bytes], others: &[Bytes]) -> Result<bool, Memory>
    ensures { IfOk result (λ are. are ≡ same_names names.now others.now) }
{
    let set = set_of(alloc, names)?;
    let other_set = set_of(alloc, others)?;
    Ok(all_among(names, &other_set) & all_among(others, &set))
}
