ghost use Rattle.std.specs.Prelude.{◌≡◌, ℕ, List, Some, None, IfOk, OnOk, if◌then◌else◌};
ghost use Rattle.pcj_term.specs.Order.{same_bytes};
ghost use Rattle.pcj_translate.specs.Term.{iri_of, expanded};
ghost use Rattle.pcj_translate.specs.Reading.{scope_by};

use crate::source::{inside_of, local_of, prefix_of, source_of};
use indexmap::IndexMap;
use pcj_grammar::{Lexeme, Terminal};
use pcj_term::{Bytes, Memory};
use std::alloc::Global;

/// What prefixes stand for (SPARQL 1.1 Query, section 4.1.1).
#[derive(Drop)]
pub struct Prefixes {
    declared: IndexMap<Bytes, Bytes>,
}

impl Prefixes {
    /// No prefix declared.
    pub fn new(alloc: Global) -> Prefixes
        ensures { (text : List ℕ) (prefix : List ℕ) → (scope_by text result).namespace prefix ≡ None }
    {
        Prefixes {
            declared: IndexMap::new(alloc),
        }
    }

    /// Declares a prefix, in place of an earlier declaration of it.
    pub fn declare(&mut self, prefix: Bytes, iri: Bytes) -> Result<(), Memory>
        ensures { OnOk result ((text other : List ℕ) → (scope_by text self.new).namespace other
            ≡ (if same_bytes prefix other then Some iri else (scope_by text self.old).namespace other)) }
    {
        self.declared.insert(prefix, iri)?;
        Ok(())
    }

    /// The IRI that a prefixed name writes, if its prefix is declared.
    fn expanded(&self, alloc: Global, source: &[u8]) -> Result<Option<Bytes>, Memory>
        ensures { (text : List ℕ) → IfOk result (λ iri. iri ≡ expanded (scope_by text self.now) source.now) }
    {
        let prefix = Bytes::from_slice(alloc, prefix_of(source))?;
        match self.declared.get(&prefix) {
            None => Ok(None),
            Some(namespace) => {
                let mut iri = Bytes::from_slice(alloc, namespace.as_slice())?;
                iri.extend_from_slice(local_of(source))?;
                Ok(Some(iri))
            }
        }
    }

    /// The IRI that a token writes, if it writes one and its prefix is declared.
    pub fn iri_of(
        &self,
        alloc: Global,
        text: &[u8],
        lexeme: Lexeme,
    ) -> Result<Option<Bytes>, Memory>
        ensures { IfOk result (λ iri. iri ≡ iri_of (scope_by text.now self.now) lexeme) }
    {
        let source = source_of(text, lexeme);
        match lexeme.terminal {
            Terminal::Iri => Ok(Some(Bytes::from_slice(alloc, inside_of(source))?)),
            Terminal::Namespace | Terminal::Name => self.expanded(alloc, source),
            _ => Ok(None),
        }
    }
}
