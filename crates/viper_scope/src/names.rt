// What names stand for.
ghost use Rattle.std.specs.Prelude.{◌≡◌, ◌++◌, ◌∷◌, [], ℕ, List, None, take, length, OnOk, OnErr};
ghost use Rattle.viper_scope.specs.Context.{find};

use indexmap::IndexMap;
use std::alloc::Global;
use std::marker::Model;
use symbol_table::NameKey;
use vb_base::{Ident, Memory};

/// What names stand for, in the order in which they were declared. Contracts see the list of both.
#[derive(Drop)]
pub struct DeclaredNames<V> {
    entries: IndexMap<Ident, V, NameKey>,
}

impl<V> Model for DeclaredNames<V> {
    ghost use Rattle.std.specs.Prelude.{ℕ, List};

    ghost Value = { List (List ℕ × V) };

    ghost view = { λ names. names.entries.entries };
}

impl<V: Copy + Drop> DeclaredNames<V> {
    /// No names, which are hashed by this key.
    pub fn new(alloc: Global, key: NameKey) -> DeclaredNames<V>
        ensures { result ≡ [] }
    {
        DeclaredNames {
            entries: IndexMap::with_hasher(alloc, key),
        }
    }

    /// The key by which names are hashed.
    pub fn key(&self) -> NameKey {
        *self.entries.hasher()
    }

    /// How many names there are.
    pub fn len(&self) -> usize
        ensures { result ≡ length self.now }
    {
        self.entries.len()
    }

    /// What the name stands for.
    pub fn find(&self, name: &Ident) -> Option<V>
        ensures { result ≡ find self.now name.now }
    {
        self.entries.get(name).copied()
    }

    /// A name that stood for nothing stands for this value.
    pub fn declare(&mut self, name: &Ident, value: V) -> Result<(), Memory>
        requires { find self.old name.now ≡ None }
        ensures ok { OnOk result (self.new ≡ self.old ++ (name.now, value) ∷ []) }
        ensures err { OnErr result (self.new ≡ self.old) }
    {
        self.entries.insert(name.copy()?, value)?;
        Ok(())
    }

    /// Forgets all but the first names.
    pub fn truncate(&mut self, len: usize)
        ensures { self.new ≡ take len self.old }
    {
        self.entries.truncate(len);
    }
}
