ghost use Rattle.std.specs.Prelude.{◌≡◌, ℕ, List, map, IfOk, OnOk, if◌then◌else◌, Some};
ghost use Rattle.pcj_term.specs.Order.{same_bytes};
ghost use Rattle.pcj_translate.specs.Term.{namespace_of};
ghost use Rattle.pcj_translate.specs.Reading.{scope_by};
ghost use Rattle.pcj_sparql.specs.Query.{scope_of, declaration_of};

use crate::declared::Declared;
use pcj_term::{Bytes, Memory};
use pcj_translate::{Prefixes, inside_of, prefix_of, source_of};
use std::alloc::Global;

/// What the prefixes of a text stand for.
pub(crate) fn prefixes_of(
    alloc: Global,
    text: &[u8],
    declared: &[Declared],
) -> Result<Prefixes, Memory>
    ensures { IfOk result (λ prefixes. scope_by text.now prefixes ≡ scope_of text.now declared.now) }
{
    let mut prefixes = Prefixes::new(alloc);
    for declaration in declared {
        declare(alloc, &mut prefixes, text, *declaration)?;
    }
    Ok(prefixes)
}

/// Declares a prefix, in place of an earlier declaration of it.
fn declare(
    alloc: Global,
    prefixes: &mut Prefixes,
    text: &[u8],
    declared: Declared,
) -> Result<(), Memory>
    ensures { OnOk result ((other : List ℕ) → (scope_by text.now prefixes.new).namespace other
        ≡ (if same_bytes (declaration_of text.now declared).prefix other then Some (declaration_of text.now declared).iri else (scope_by text.now prefixes.old).namespace other)) }
{
    let prefix = Bytes::from_slice(alloc, prefix_of(source_of(text, declared.namespace)))?;
    let iri = Bytes::from_slice(alloc, inside_of(source_of(text, declared.iri)))?;
    prefixes.declare(prefix, iri)
}
