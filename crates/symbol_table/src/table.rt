// A table of names.
ghost use Rattle.std.specs.Prelude.{◌≡◌, [], length, OnOk, OnErr};
ghost use Rattle.std.specs.List.{position};
ghost use Rattle.std.specs.Str.{bytes_eq};
ghost use Rattle.symbol_table.specs.Names.{with_name};

use crate::keys::NameKey;
use indexmap::IndexSet;
use std::alloc::Global;
use std::marker::Model;
use vb_base::{Ident, Memory, same_bytes};

/// Names that differ, in the order in which they were added, each with its number. Contracts see the list of them.
#[derive(Drop)]
pub struct SymbolTable {
    names: IndexSet<Ident, NameKey>,
}

impl Model for SymbolTable {
    ghost use Rattle.std.specs.Prelude.{ℕ, List};

    ghost Value = { List (List ℕ) };

    ghost view = { λ table. table.names.keys };
}

impl SymbolTable {
    /// No names, and this key.
    pub fn new(alloc: Global, key: NameKey) -> SymbolTable
        ensures { result ≡ [] }
    {
        SymbolTable {
            names: IndexSet::with_hasher(alloc, key),
        }
    }

    /// The key by which names are hashed.
    pub fn key(&self) -> NameKey {
        *self.names.hasher()
    }

    /// All names, in the order of their numbers.
    pub fn all(&self) -> &[Ident]
        ensures { result.now ≡ self.now }
    {
        self.names.as_slice()
    }

    /// The number of a name.
    pub fn number_of(&self, name: &Ident) -> Option<usize>
        ensures { result ≡ position (bytes_eq name.now) self.now }
    {
        // Many tables stay empty, and need no hash.
        if self.names.is_empty() {
            return None;
        }
        self.names.get_index_of(name)
    }

    /// The number of the name of these bytes.
    pub fn number_of_bytes(&self, bytes: &[u8]) -> Option<usize>
        ensures { result ≡ position (bytes_eq bytes.now) self.now }
    {
        match Ident::new(*self.names.allocator(), bytes) {
            Ok(name) => self.number_of(&name),
            // Without memory for a long name it is looked for among all.
            Err(Memory) => self
                .all()
                .iter()
                .position(|name| same_bytes(bytes, name.bytes())),
        }
    }

    /// One name more, which has the next number, unless it is there. `Memory` where there is no memory.
    pub fn add(&mut self, name: Ident) -> Result<(), Memory>
        ensures ok { OnOk result (self.new ≡ with_name self.old name) }
        ensures err { OnErr result (self.new ≡ self.old) }
    {
        self.names.insert(name)?;
        Ok(())
    }
}
