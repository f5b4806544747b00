ghost use Rattle.std.specs.Map.{lookup};
ghost use Rattle.std.specs.Option.{option_copied};
ghost use Rattle.std.specs.Prelude.{◌≡◌, ◌≤◌, ◌++◌, ◌∷◌, Some, None, [], OnOk, IfOk};
ghost use Rattle.pcj_term.specs.Order.{same_bytes};
ghost use Rattle.pcj_tree.specs.Tree.{IsTree};
ghost use Rattle.pcj_rows.specs.Registrations.{IsQueryTree};
ghost use Rattle.pcj_session.specs.Registry.{AreLeft, AreRebuilt, AreRegistrations, Opens};

use indexmap::IndexMap;
use pcj_algebra::Query;
use pcj_rebuild::query_of;
use pcj_registrations::Registration;
use pcj_term::{Bytes, Memory, TryClone};
use pcj_tree::Tree;
use sqlite_items::Boxed;
use std::alloc::Global;
use std::marker::Model;

/// A query that a client registers under a name.
#[derive(Drop)]
pub(crate) struct Opened {
    name: Bytes,
    query: Boxed<Query>,
}

/// The registered queries by their names, and what each client registers until that is committed.
#[derive(Drop)]
pub(crate) struct Registry {
    queries: IndexMap<Bytes, Boxed<Query>>,
    opened: IndexMap<u8, Opened>,
}

impl Model for Registry {
    ghost use Rattle.pcj_algebra.specs.contracts.pattern.Pattern as pattern;
    ghost use Rattle.std.specs.Coded.{codes};
    ghost use Rattle.std.specs.HashMap.{spare};
    ghost use Rattle.pcj_session.specs.Registry.{Kept};

    ghost Value = { Kept };

    ghost coded = { Prim.hlevel (codes, pattern.the_row.coded) };

    ghost view = { λ r. record { queries = r.queries.entries; opened = r.opened.entries; room = spare r.queries } };
}

impl Registry {
    /// The registry of a table that has these registrations, whose names are distinct. No client registers anything.
    pub(crate) fn new(alloc: Global, registrations: &[Registration]) -> Result<Registry, Memory>
        requires { AreRegistrations registrations.now }
        ensures queries { IfOk result (λ registry. AreRebuilt registrations.now registry.queries) }
        ensures opened { IfOk result (λ registry. registry.opened ≡ []) }
    {
        let mut queries = IndexMap::new(alloc);
        for registration in registrations {
            let name = registration.name.try_clone(alloc)?;
            let query = boxed_query(alloc, &registration.tree)?;
            insert_query(&mut queries, name, query)?;
        }
        Ok(Registry {
            queries,
            opened: IndexMap::new(alloc),
        })
    }

    /// The query that is registered under a name.
    pub(crate) fn named(&self, name: &Bytes) -> Option<&Query>
        ensures { option_copied result ≡ lookup (same_bytes name.now) self.now.queries }
    {
        let query = self.queries.get(name)?;
        Some(query.get())
    }

    /// A client registers this query from now on, and nothing else. After `Memory` nothing has changed.
    pub(crate) fn open(
        &mut self,
        client: u8,
        name: Bytes,
        query: Boxed<Query>,
    ) -> Result<(), Memory>
        ensures queries { self.new.queries ≡ self.old.queries }
        ensures opened { OnOk result (Opens client (Some (record { name = name; query = query })) self.old.opened self.new.opened) }
    {
        self.opened.insert(client, Opened { name, query })?;
        Ok(())
    }

    /// A client registers nothing from now on.
    pub(crate) fn close(&mut self, client: u8)
        ensures queries { self.new.queries ≡ self.old.queries }
        ensures opened { Opens client None self.old.opened self.new.opened }
    {
        self.opened.swap_remove(&client);
    }

    /// Makes room for one more registered query. Nothing else changes.
    pub(crate) fn reserve(&mut self) -> Result<(), Memory>
        ensures queries { self.new.queries ≡ self.old.queries }
        ensures opened { self.new.opened ≡ self.old.opened }
        ensures room { OnOk result (1 ≤ self.new.room) }
    {
        self.queries.reserve(1)?;
        Ok(())
    }

    /// Where a client's steps have made a commit, what it registers, if anything, is registered from now on. There is room for it,
    /// so that this needs no memory.
    pub(crate) fn keep(&mut self, client: u8, commit: Option<u64>)
        requires { 1 ≤ self.old.room }
        ensures { AreLeft client commit self.old.opened self.old.queries self.new.opened self.new.queries }
    {
        if commit.is_none() {
            return;
        }
        let Some(opened) = self.opened.swap_remove(&client) else {
            return;
        };
        match self.queries.insert(opened.name, opened.query) {
            Ok(_) => {}
            Err(_) => unreachable!(),
        }
    }
}

/// The query of a tree, in a box of its own.
fn boxed_query(alloc: Global, tree: &Tree) -> Result<Boxed<Query>, Memory>
    requires { IsQueryTree tree.now }
    ensures { IfOk result (λ query. IsTree query tree.now) }
{
    let query = query_of(alloc, tree)?;
    Ok(Boxed::new(alloc, query)?)
}

/// Adds a query under a name that no query has.
fn insert_query(
    queries: &mut IndexMap<Bytes, Boxed<Query>>,
    name: Bytes,
    query: Boxed<Query>,
) -> Result<(), Memory>
    requires { lookup (same_bytes name) queries.old.entries ≡ None }
    ensures { OnOk result (queries.new.entries ≡ queries.old.entries ++ (name, query) ∷ []) }
{
    queries.insert(name, query)?;
    Ok(())
}
