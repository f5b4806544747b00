ghost use Rattle.std.specs.Prelude.{◌≡◌, ◌≤◌, ◌-◌, false, List, length, take, IfOk, OnOk};
ghost use Rattle.pcj_grammar.specs.declared.lexeme.Lexeme.{Lexeme};
ghost use Rattle.pcj_grammar.specs.Grammar.{name, Derives};
ghost use Rattle.pcj_grammar.specs.Grammar as g;
ghost use Rattle.pcj_translate.specs.Adding.{behind_one};
ghost use Rattle.pcj_translate.specs.Grouping.{begins_union, begins_brace, IsWithinGroup};
ghost use Rattle.pcj_translate.specs.Places.{lowest_of};
ghost use Rattle.pcj_translate.specs.Reading.{scope_by, scope_of_reader};
ghost use Rattle.pcj_translate.specs.Uses.{bare_groups, unknown_in_group, uneven_in_group};
ghost use Rattle.pcj_groups.specs.Finding.{place_at};
ghost use Rattle.pcj_groups.specs.Walking.{WalksGroup, WalksJoint, WalksBlock, WalksOther, SkipsInner};

use crate::faults::GroupFaults;
use crate::findings::Findings;
use pcj_grammar::{Lexeme, Terminal};
use pcj_term::{Items, Memory};
use pcj_translate::{Prefixes, Reader};
use std::alloc::Global;

/// The place of the first token, or 0.
fn place_at(lexemes: &[Lexeme]) -> usize
    ensures { result ≡ place_at lexemes.now }
{
    match lexemes {
        [] => 0,
        [lexeme, ..] => lexeme.at,
    }
}

/// The tokens before those that are left.
fn taken<'t>(before: &'t [Lexeme], left: &[Lexeme]) -> &'t [Lexeme]
    ensures { result.now ≡ take (length before.now - length left.now) before.now }
{
    let (front, _) = before.split_at(before.len().saturating_sub(left.len()));
    front
}

/// Whether the word UNION stands at the front.
fn starts_union(reader: &Reader<'_>) -> bool
    ensures { result ≡ begins_union reader.now.rest.now }
{
    match reader.rest {
        [] => false,
        [lexeme, ..] => matches!(lexeme.terminal, Terminal::Union),
    }
}

/// Takes a block, where one stands at the front, and adds its triple patterns.
fn block(reader: &mut Reader<'_>, alloc: Global, found: &mut Findings) -> Result<(), Memory>
    ensures ok { OnOk result (WalksBlock (scope_of_reader reader.old) reader.old.rest.now reader.new.rest.now found.old found.new) }
    ensures fewer { OnOk result (length reader.new.rest.now ≤ length reader.old.rest.now) }
    ensures scope { scope_of_reader reader.new ≡ scope_of_reader reader.old }
{
    let mut triples = Items::new(alloc);
    reader.block(alloc, &mut triples)?;
    found.add_triples(alloc, triples.as_slice())
}

/// Takes a condition in parentheses.
fn skip_condition(reader: &mut Reader<'_>, alloc: Global, levels: u8) -> Result<(), Memory>
    ensures ok { OnOk result (SkipsInner levels reader.old.rest.now reader.new.rest.now) }
    ensures fewer { OnOk result (length reader.new.rest.now ≤ length reader.old.rest.now) }
    ensures scope { scope_of_reader reader.new ≡ scope_of_reader reader.old }
{
    reader.inner(alloc, levels)?;
    Ok(())
}

/// Takes a filter, and adds the variables of its condition.
fn condition(
    reader: &mut Reader<'_>,
    alloc: Global,
    levels: u8,
    found: &mut Findings,
) -> Result<(), Memory>
    ensures ok { OnOk result (begins_brace reader.old.rest.now ≡ false → WalksOther (scope_of_reader reader.old) levels reader.old.rest.now reader.new.rest.now found.old found.new) }
    ensures fewer { OnOk result (length reader.new.rest.now ≤ length (behind_one reader.old.rest.now)) }
    ensures scope { scope_of_reader reader.new ≡ scope_of_reader reader.old }
{
    reader.skip();
    let tokens = reader.rest;
    skip_condition(reader, alloc, levels)?;
    found.add_uses(taken(tokens, reader.rest))
}

/// Takes groups that `UNION` joins, and adds them.
#[cycle(groups)]
fn joint(
    reader: &mut Reader<'_>,
    alloc: Global,
    levels: u8,
    found: &mut Findings,
) -> Result<(), Memory>
    ensures ok { OnOk result (WalksJoint (scope_of_reader reader.old) levels reader.old.rest.now reader.new.rest.now found.old found.new) }
    ensures fewer { OnOk result (length reader.new.rest.now ≤ length (behind_one reader.old.rest.now)) }
    ensures scope { scope_of_reader reader.new ≡ scope_of_reader reader.old }
{
    let first = group(reader, alloc, levels)?;
    found.add_group(alloc, &first)?;
    while starts_union(reader) {
        let place = place_at(reader.rest);
        reader.skip();
        let next = group(reader, alloc, levels)?;
        found.add_union(alloc, &first.names, place, &next)?;
    }
    Ok(())
}

/// Takes a filter, or groups that `UNION` joins, and adds it.
#[cycle(groups)]
fn other(
    reader: &mut Reader<'_>,
    alloc: Global,
    levels: u8,
    found: &mut Findings,
) -> Result<(), Memory>
    ensures ok { OnOk result (WalksOther (scope_of_reader reader.old) levels reader.old.rest.now reader.new.rest.now found.old found.new) }
    ensures fewer { OnOk result (length reader.new.rest.now ≤ length (behind_one reader.old.rest.now)) }
    ensures scope { scope_of_reader reader.new ≡ scope_of_reader reader.old }
{
    if reader.starts_brace() {
        joint(reader, alloc, levels, found)
    } else {
        condition(reader, alloc, levels, found)
    }
}

/// Takes a group.
#[cycle(groups)]
fn group(reader: &mut Reader<'_>, alloc: Global, levels: u8) -> Result<Findings, Memory>
    ensures ok { IfOk result (WalksGroup (scope_of_reader reader.old) levels reader.old.rest.now reader.new.rest.now) }
    ensures fewer { OnOk result (length reader.new.rest.now ≤ length (behind_one reader.old.rest.now)) }
    ensures scope { scope_of_reader reader.new ≡ scope_of_reader reader.old }
{
    let place = place_at(reader.rest);
    reader.skip();
    let mut found = Findings::new(alloc);
    if levels == 0 {
        return Ok(found);
    }
    block(reader, alloc, &mut found)?;
    while reader.starts_other() {
        other(reader, alloc, levels - 1, &mut found)?;
        reader.dot();
        block(reader, alloc, &mut found)?;
    }
    reader.skip();
    found.close(alloc, reader, place)?;
    Ok(found)
}

/// The faults of the group that begins the tokens, and of the groups inside it.
pub fn group_faults(
    alloc: Global,
    text: &[u8],
    prefixes: &Prefixes,
    tokens: &[Lexeme],
) -> Result<GroupFaults, Memory>
    ensures bare { IfOk result (λ faults. (y : List Lexeme) (d : Derives (name g.Group) tokens.now y) → IsWithinGroup 64 d → faults.bare ≡ lowest_of (bare_groups d)) }
    ensures unknown { IfOk result (λ faults. (y : List Lexeme) (d : Derives (name g.Group) tokens.now y) → IsWithinGroup 64 d → faults.unknown ≡ lowest_of (unknown_in_group (scope_by text.now prefixes.now) d)) }
    ensures uneven { IfOk result (λ faults. (y : List Lexeme) (d : Derives (name g.Group) tokens.now y) → IsWithinGroup 64 d → faults.uneven ≡ lowest_of (uneven_in_group (scope_by text.now prefixes.now) d)) }
{
    let mut reader = Reader {
        text,
        prefixes,
        rest: tokens,
    };
    let found = group(&mut reader, alloc, 64)?;
    Ok(found.faults())
}
