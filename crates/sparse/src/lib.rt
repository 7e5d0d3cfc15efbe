//! Maps with a default: every key has a value, and all but finitely many have the default.
#![tactic(auto)]

ghost use Rattle.std.specs.Prelude.{◌≡◌, ◌<◌, length, slice_get, IfOk, OnOk, OnErr};

mod builder;
pub mod laws;
mod tree;

pub use builder::Builder;
pub use memory::Memory;
use std::alloc::Global;
use std::marker::Model;
use tree::Tree;

/// A map with a default. Contracts see it as a `Map` of `specs/Map.antt`: the default, and the keys that
/// have another value in ascending order, each with its value.
///
/// The entries are kept as a balanced tree, whose parts are shared with copies: a copy takes no time, and a
/// change of one key makes the nodes on its path anew and leaves every other map as it is.
///
/// Keys are told apart by their order and values by their equality, so a change and a copy are stated up
/// to those (`IsSame`). Where the order and the equality are exact, or are those of what keys and values
/// mean (`specs/Meaning.antt`), maps that are the same are equal, and so are their meanings (`laws`).
#[derive(Debug, Drop)]
pub struct Sparse<K: Ord + Clone, V: Eq + Clone> {
    alloc: Global,
    zero: V,
    root: Tree<K, V>,
}

impl<K: Ord + Clone, V: Eq + Clone> Model for Sparse<K, V> {
    ghost use Rattle.sparse.specs.Map.{Map, map_code, IsReduced};
    ghost use Rattle.sparse.specs.Tree.{plain_of, entries, IsBalanced};

    ghost Value = { Map K V };

    ghost coded = { map_code K.code V.code };

    ghost view = { λ a. record { default = a.zero; entries = entries (plain_of a.root) } };

    ghost invariant = { λ a. IsReduced K.cmp V.eq (record { default = a.zero; entries = entries (plain_of a.root) }) × IsBalanced (plain_of a.root) };
}

impl<K: Ord + Clone, V: Eq + Clone> Sparse<K, V> {
    ghost use Rattle.std.specs.List.{list_any};
    ghost use Rattle.sparse.specs.Map.{empty, get, set, keys, values, borrowed, IsReduced, IsSame, ClonesAreEqual};

    /// The map in which every key has the default `zero`. `Memory` where there is no memory.
    pub fn make(alloc: Global, zero: V) -> Result<Sparse<K, V>, Memory>
        ensures empty { IfOk result (λ m. m ≡ empty zero) }
        ensures reduced { IfOk result (IsReduced K.cmp V.eq) }
    {
        Ok(Sparse {
            alloc,
            zero,
            root: Tree::Leaf,
        })
    }

    /// The value of every key that has no other.
    pub fn default(&self) -> &V
        ensures value { result.now ≡ self.now.default }
        ensures reduced { IsReduced K.cmp V.eq self.now }
    {
        &self.zero
    }

    /// The value at a key.
    pub fn get(&self, key: &K) -> &V
        ensures value { result.now ≡ get K.cmp self.now key.now }
        ensures reduced { IsReduced K.cmp V.eq self.now }
    {
        self.root.get_or(key, &self.zero)
    }

    /// Gives a key a value. A key that is given the default has no entry afterwards. Where there is no
    /// memory the map is as it was.
    pub fn set(&mut self, key: K, value: V) -> Result<(), Memory>
        requires { ClonesAreEqual K.cmp V.eq K.is_clone V.is_clone }
        ensures changed { OnOk result (IsSame K.cmp V.eq (set K.cmp V.eq self.old key value) self.new) }
        ensures refused { OnErr result (self.new ≡ self.old) }
        ensures reduced_before { IsReduced K.cmp V.eq self.old }
        ensures reduced { IsReduced K.cmp V.eq self.new }
    {
        self.root = self.root.changed(self.alloc, &self.zero, key, value)?;
        Ok(())
    }

    /// An equal map, which shares its entries. `Memory` where there is no memory.
    pub fn copy(&self) -> Result<Sparse<K, V>, Memory>
        requires { ClonesAreEqual K.cmp V.eq K.is_clone V.is_clone }
        ensures same { IfOk result (IsSame K.cmp V.eq self.now) }
        ensures reduced { IsReduced K.cmp V.eq self.now }
        ensures copy_reduced { IfOk result (IsReduced K.cmp V.eq) }
    {
        Ok(Sparse {
            alloc: self.alloc,
            zero: self.zero.clone()?,
            root: self.root.share()?,
        })
    }

    /// The number of keys that have another value than the default.
    pub fn len(&self) -> usize
        ensures len { result ≡ length (keys self.now) }
        ensures reduced { IsReduced K.cmp V.eq self.now }
    {
        self.root.size()
    }

    /// The key at an index, from 0, among those that have another value than the default, in ascending
    /// order.
    pub fn key_at(&self, i: usize) -> &K
        requires { i < length (keys self.now) }
        ensures key { slice_get (keys self.now) i ≡ Some result.now }
        ensures reduced { IsReduced K.cmp V.eq self.now }
    {
        self.root.key_at(i)
    }

    /// Whether one of the keys that have another value than the default has this value.
    pub fn has(&self, value: &V) -> bool
        ensures has { result ≡ list_any (λ w. V.eq w value.now) (values self.now) }
        ensures reduced { IsReduced K.cmp V.eq self.now }
    {
        self.root.has(value)
    }

    /// The keys that have another value than the default, in ascending order, each with its value.
    /// `Memory` where there is no memory.
    pub fn entries(&self) -> Result<Vec<&(K, V)>, Memory>
        ensures entries { IfOk result (λ list. borrowed list.items ≡ self.now.entries) }
        ensures reduced { IsReduced K.cmp V.eq self.now }
    {
        let mut list = Vec::with_capacity(self.alloc, self.root.size())?;
        self.root.list(&mut list);
        Ok(list)
    }
}
