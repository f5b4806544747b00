ghost use Rattle.std.specs.Prelude.{◌≡◌, ℕ, List, [], ◌++◌, length, OnOk};
ghost use Rattle.std.specs.List.{list_all};
ghost use Rattle.pcj_translate.specs.Names.{with_name, with_names, IsSetOf};
ghost use Rattle.pcj_translate.specs.Variables.{has_variable, same_variables, slot_variables, triple_variables, variables_of};

use indexmap::IndexSet;
use pcj_algebra::{Pattern, Slot, TriplePattern};
use pcj_term::{Bytes, Memory};
use std::alloc::Global;
use std::marker::Model;

/// Names of variables, each once, in the order in which they were added.
#[derive(Drop)]
pub struct NameSet {
    inside: IndexSet<Bytes>,
}

impl Model for NameSet {
    ghost use Rattle.std.specs.Prelude.{List, ℕ};

    ghost Value = { List (List ℕ) };

    ghost view = { λ it. it.inside.keys };
}

impl NameSet {
    /// No names yet.
    pub fn new(alloc: Global) -> NameSet
        ensures { result ≡ [] }
    {
        NameSet {
            inside: IndexSet::new(alloc),
        }
    }

    /// How many names there are.
    pub fn len(&self) -> usize
        ensures { result ≡ length self.now }
    {
        self.inside.len()
    }

    /// Whether a name is among them.
    pub fn has(&self, name: &Bytes) -> bool
        ensures { result ≡ has_variable self.now name.now }
    {
        self.inside.contains(name)
    }

    /// Adds a name, unless it is there.
    pub fn add(&mut self, alloc: Global, name: &[u8]) -> Result<(), Memory>
        ensures { OnOk result (self.new ≡ with_name self.old name.now) }
    {
        let name = Bytes::from_slice(alloc, name)?;
        self.inside.insert(name)?;
        Ok(())
    }

    /// Adds the names of another set.
    pub fn add_all(&mut self, alloc: Global, other: &NameSet) -> Result<(), Memory>
        ensures { OnOk result (self.new ≡ with_names self.old other.now) }
    {
        for name in other.inside.as_slice() {
            self.add(alloc, name.as_slice())?;
        }
        Ok(())
    }

    /// Whether each name of another set is among them.
    fn has_all(&self, other: &NameSet) -> bool
        ensures { result ≡ list_all (has_variable self.now) other.now }
    {
        other.inside.iter().all(|name| self.has(name))
    }

    /// Whether another set has the same names.
    pub fn same(&self, other: &NameSet) -> bool
        ensures { result ≡ same_variables self.now other.now }
    {
        other.has_all(self) && self.has_all(other)
    }

    /// Adds the variable of a slot, where it has one.
    fn add_slot(&mut self, alloc: Global, slot: &Slot) -> Result<(), Memory>
        ensures { OnOk result ((names : List (List ℕ)) → IsSetOf names self.old → IsSetOf (slot_variables slot.now ++ names) self.new) }
    {
        match slot {
            Slot::Var(name) => self.add(alloc, name.as_slice()),
            Slot::Value(_) => Ok(()),
        }
    }

    /// Adds the variables of a triple pattern.
    fn add_triple(&mut self, alloc: Global, triple: &TriplePattern) -> Result<(), Memory>
        ensures { OnOk result ((names : List (List ℕ)) → IsSetOf names self.old → IsSetOf (triple_variables triple.now ++ names) self.new) }
    {
        self.add_slot(alloc, &triple.object)?;
        self.add_slot(alloc, &triple.predicate)?;
        self.add_slot(alloc, &triple.subject)
    }

    /// Adds the variables of a pattern's triple patterns.
    pub fn add_pattern(&mut self, alloc: Global, pattern: &Pattern) -> Result<(), Memory>
        ensures { OnOk result ((names : List (List ℕ)) → IsSetOf names self.old → IsSetOf (variables_of pattern.now ++ names) self.new) }
    {
        match pattern {
            Pattern::Triple(triple) => self.add_triple(alloc, triple),
            Pattern::Filter(_, inner) => self.add_pattern(alloc, inner.get()),
            Pattern::Join(left, right) | Pattern::Union(left, right) => {
                self.add_pattern(alloc, right.get())?;
                self.add_pattern(alloc, left.get())
            }
        }
    }
}
