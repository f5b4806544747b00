ghost use Rattle.std.specs.Prelude.{◌≡◌, map, IfOk};
ghost use Rattle.pcj_translate.specs.Places.{lowest_of};
ghost use Rattle.pcj_translate.specs.Uses.{unknown_among};
ghost use Rattle.pcj_translate.specs.Variables.{variables_in};
ghost use Rattle.pcj_translate.specs.Reading.{scope_by};
ghost use Rattle.pcj_sparql.specs.Query.{items_uses};
ghost use Rattle.pcj_sparql.specs.Clauses.{unknown_in};
ghost use Rattle.pcj_sparql.specs.Listing.{said_use, is_stranger, strangers};

use crate::clauses::Clauses;
use crate::names::{name_in, pattern_names};
use crate::said::Said;
use pcj_grammar::Lexeme;
use pcj_term::{Bytes, Items, Memory};
use pcj_translate::{NameSet, lower, lower_of};
use std::alloc::Global;

impl<'t> Clauses<'t> {
    /// The lowest place of a variable of SELECT, an aggregate or `GROUP BY` that no triple pattern has.
    pub(crate) fn unknown(&self, alloc: Global) -> Result<Option<usize>, Memory>
        ensures { IfOk result (λ at. at ≡ lowest_of (unknown_in self.now)) }
    {
        let names = pattern_names(alloc, &self.pattern)?;
        let sources = sources_of(alloc, self.head.items.as_slice())?;
        let item = stranger(alloc, self.text, sources.as_slice(), &names)?;
        let key = stranger(alloc, self.text, self.keys.as_slice(), &names)?;
        Ok(lower_of(item, key))
    }
}

/// What the values of some items come from.
fn sources_of(alloc: Global, items: &[Said]) -> Result<Items<Lexeme>, Memory>
    ensures { IfOk result (λ sources. sources ≡ map said_use items.now) }
{
    let mut sources = Items::new(alloc);
    for said in items {
        sources.push(said.source())?;
    }
    Ok(sources)
}

/// Whether a variable isn't among these names.
fn is_stranger(alloc: Global, text: &[u8], lexeme: Lexeme, names: &NameSet) -> Result<bool, Memory>
    ensures { IfOk result (λ is. is ≡ is_stranger text.now names.now lexeme) }
{
    let name = Bytes::from_slice(alloc, name_in(text, lexeme))?;
    Ok(!names.has(&name))
}

/// The lowest place of a variable that isn't among these names.
fn stranger(
    alloc: Global,
    text: &[u8],
    lexemes: &[Lexeme],
    names: &NameSet,
) -> Result<Option<usize>, Memory>
    ensures { IfOk result (λ at. at ≡ lowest_of (strangers text.now names.now lexemes.now)) }
{
    let mut lowest = None;
    for lexeme in lexemes {
        if is_stranger(alloc, text, *lexeme, names)? {
            lowest = lower(lexeme.at, lowest);
        }
    }
    Ok(lowest)
}
