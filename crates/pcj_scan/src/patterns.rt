ghost use Rattle.std.specs.Prelude.{◌≡◌, ◌++◌, map, IfOk, OnOk};
ghost use Rattle.pcj_solutions.specs.Solutions.{triple_patterns};

use pcj_algebra::{Pattern, TriplePattern};
use pcj_term::Memory;
use std::alloc::Global;

/// The triple patterns of a pattern, in the order of the text.
pub(crate) fn triple_patterns<'a>(
    alloc: Global,
    pattern: &'a Pattern,
) -> Result<Vec<&'a TriplePattern>, Memory>
    ensures { IfOk result (λ patterns. map (λ pattern. pattern.now) patterns.items ≡ triple_patterns pattern.now) }
{
    let mut patterns = Vec::new(alloc);
    push_triple_patterns(&mut patterns, pattern)?;
    Ok(patterns)
}

fn push_triple_patterns<'a>(
    patterns: &mut Vec<&'a TriplePattern>,
    pattern: &'a Pattern,
) -> Result<(), Memory>
    ensures { OnOk result (map (λ pattern. pattern.now) patterns.new.items ≡ map (λ pattern. pattern.now) patterns.old.items ++ triple_patterns pattern.now) }
{
    match pattern {
        Pattern::Triple(triple) => {
            patterns.push(triple)?;
            Ok(())
        }
        Pattern::Join(left, right) => {
            push_triple_patterns(patterns, left.get())?;
            push_triple_patterns(patterns, right.get())
        }
        Pattern::Filter(_, inner) => push_triple_patterns(patterns, inner.get()),
        Pattern::Union(left, right) => {
            push_triple_patterns(patterns, left.get())?;
            push_triple_patterns(patterns, right.get())
        }
    }
}
