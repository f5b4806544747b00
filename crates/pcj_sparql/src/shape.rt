ghost use Rattle.std.specs.Prelude.{◌≡◌, not, ◌&&◌, map, Some, IfOk};
ghost use Rattle.std.specs.List.{list_all, list_any};
ghost use Rattle.pcj_translate.specs.Variables.{has_variable, variables_in};
ghost use Rattle.pcj_sparql.specs.Query.{is_variable, is_var_token, is_union_token, is_empty, suits, suits_keys, is_select, is_grouping, is_grouping_by, misshapen, aggregate_of, shape_by, shape_of};
ghost use Rattle.pcj_algebra.specs.declared.query.Shape.TheVariants.{Distinct};
ghost use Rattle.pcj_translate.specs.Places.{lowest_of};
ghost use Rattle.pcj_sparql.specs.Clauses.{parts_in};
ghost use Rattle.pcj_sparql.specs.Listing.{name_in, said_name_in};

use crate::clauses::Clauses;
use crate::names::{
    are_distinct, item_names, name_in, names_of, pattern_names, same_names, set_of,
};
use crate::said::Said;
use pcj_algebra::{Aggregate, Shape};
use pcj_grammar::{Lexeme, Terminal};
use pcj_term::{Bytes, Memory};
use std::alloc::Global;

impl<'t> Clauses<'t> {
    /// Whether they are `SELECT DISTINCT` of variables, each once, without `GROUP BY`.
    fn is_select(&self, alloc: Global) -> Result<bool, Memory>
        ensures { IfOk result (λ is. is ≡ is_select (parts_in self.now)) }
    {
        let items = self.head.items.as_slice();
        let names = item_names(alloc, self.text, items)?;
        let distinct = are_distinct(alloc, names.as_slice())?;
        let no_keys = is_empty(self.keys.as_slice());
        Ok(self.head.distinct & no_keys & all_plain(items) & distinct)
    }

    /// Whether the variables of `GROUP BY` are those of these items, each once.
    fn suits_keys(&self, alloc: Global, items: &[Said]) -> Result<bool, Memory>
        ensures { IfOk result (λ suits. suits ≡ suits_keys (parts_in self.now) items.now) }
    {
        let names = item_names(alloc, self.text, items)?;
        let keys = names_of(alloc, self.text, self.keys.as_slice())?;
        let distinct = are_distinct(alloc, names.as_slice())?;
        let distinct_keys = are_distinct(alloc, keys.as_slice())?;
        let same = same_names(alloc, names.as_slice(), keys.as_slice())?;
        let some_keys = !is_empty(self.keys.as_slice());
        Ok(some_keys & all_plain(items) & distinct & distinct_keys & same)
    }

    /// Whether a name is neither in the pattern nor among those of these items.
    fn is_new(&self, alloc: Global, items: &[Said], lexeme: Lexeme) -> Result<bool, Memory>
        ensures { IfOk result (λ is. is ≡ (not (has_variable (variables_in self.now.pattern) (name_in self.now.text.now lexeme)) && not (has_variable (map (said_name_in self.now.text.now) items.now) (name_in self.now.text.now lexeme)))) }
    {
        let name = Bytes::from_slice(alloc, name_in(self.text, lexeme))?;
        let variables = pattern_names(alloc, &self.pattern)?;
        let names = item_names(alloc, self.text, items)?;
        let taken = set_of(alloc, names.as_slice())?;
        Ok(!variables.has(&name) & !taken.has(&name))
    }

    /// Whether they group by these items, and the last one is an aggregate over the groups.
    fn groups_by(&self, alloc: Global, items: &[Said], last: Said) -> Result<bool, Memory>
        ensures { IfOk result (λ is. is ≡ is_grouping_by (parts_in self.now) items.now (Some last)) }
    {
        match last {
            Said::Plain(_) => Ok(false),
            Said::Aggregate {
                function,
                distinct,
                argument,
                name,
            } => {
                let suits_keys = self.suits_keys(alloc, items)?;
                let is_new = self.is_new(alloc, items, name)?;
                let of_variable = is_var(argument.terminal);
                let united = has_union(self.head.body);
                Ok(suits_keys & suits(function, distinct) & of_variable & is_new & !united)
            }
        }
    }

    /// Whether the last item is an aggregate, and they group by the others.
    fn is_grouping(&self, alloc: Global) -> Result<bool, Memory>
        ensures { IfOk result (λ is. is ≡ is_grouping (parts_in self.now)) }
    {
        match self.head.items.as_slice().split_last() {
            None => Ok(false),
            Some((last, items)) => self.groups_by(alloc, items, *last),
        }
    }

    /// The word SELECT, where they have neither shape.
    pub(crate) fn misshapen(&self, alloc: Global) -> Result<Option<usize>, Memory>
        ensures { IfOk result (λ at. at ≡ lowest_of (misshapen (parts_in self.now))) }
    {
        let is_select = self.is_select(alloc)?;
        let is_grouping = self.is_grouping(alloc)?;
        if is_select | is_grouping {
            Ok(None)
        } else {
            Ok(Some(self.head.select.at))
        }
    }

    /// What a row of the answer has, by the last item and those before it.
    fn shape_by(&self, alloc: Global, items: &[Said], last: Said) -> Result<Shape, Memory>
        ensures { IfOk result (λ shape. shape ≡ shape_by (parts_in self.now).scope self.now.head.now.items items.now (Some last)) }
    {
        match last {
            Said::Plain(_) => self.distinct_shape(alloc),
            Said::Aggregate {
                function,
                argument,
                name,
                ..
            } => {
                let keys = item_names(alloc, self.text, items)?;
                let var = Bytes::from_slice(alloc, name_in(self.text, argument))?;
                let as_name = Bytes::from_slice(alloc, name_in(self.text, name))?;
                Ok(Shape::Group {
                    keys,
                    aggregate: aggregate_of(function),
                    var,
                    as_name,
                })
            }
        }
    }

    fn distinct_shape(&self, alloc: Global) -> Result<Shape, Memory>
        ensures { IfOk result (λ shape. shape ≡ Distinct (map (said_name_in self.now.text.now) self.now.head.now.items)) }
    {
        let names = item_names(alloc, self.text, self.head.items.as_slice())?;
        Ok(Shape::Distinct(names))
    }

    /// What a row of the answer has.
    pub(crate) fn shape(&self, alloc: Global) -> Result<Shape, Memory>
        ensures { IfOk result (λ shape. shape ≡ shape_of (parts_in self.now)) }
    {
        match self.head.items.as_slice().split_last() {
            None => self.distinct_shape(alloc),
            Some((last, items)) => self.shape_by(alloc, items, *last),
        }
    }
}

fn is_empty(lexemes: &[Lexeme]) -> bool
    ensures { result ≡ is_empty lexemes.now }
{
    match lexemes {
        [] => true,
        [_, ..] => false,
    }
}

fn all_plain(items: &[Said]) -> bool
    ensures { result ≡ list_all is_variable items.now }
{
    items.iter().all(|said| said.is_plain())
}

fn is_var(terminal: Terminal) -> bool
    ensures { result ≡ is_var_token terminal }
{
    matches!(terminal, Terminal::Var)
}

fn is_union(lexeme: Lexeme) -> bool
    ensures { result ≡ is_union_token lexeme.terminal }
{
    matches!(lexeme.terminal, Terminal::Union)
}

fn has_union(lexemes: &[Lexeme]) -> bool
    ensures { result ≡ list_any (λ l. is_union_token l.terminal) lexemes.now }
{
    lexemes.iter().any(|lexeme| is_union(*lexeme))
}

/// Whether a function stands with DISTINCT where it is COUNT, and else without.
fn suits(function: Terminal, distinct: bool) -> bool
    ensures { result ≡ suits function distinct }
{
    match function {
        Terminal::Count => distinct,
        Terminal::Sum | Terminal::Min | Terminal::Max => !distinct,
        _ => false,
    }
}

fn aggregate_of(function: Terminal) -> Aggregate
    ensures { result ≡ aggregate_of function }
{
    match function {
        Terminal::Sum => Aggregate::Sum,
        Terminal::Min => Aggregate::Min,
        Terminal::Max => Aggregate::Max,
        _ => Aggregate::Count,
    }
}
