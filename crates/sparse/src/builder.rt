//! Maps that are made of many entries at once.
ghost use Rattle.std.specs.Prelude.{◌≡◌, ◌++◌, ◌∷◌, [], IsTrue, IfOk, OnOk, OnErr};
ghost use Rattle.std.specs.List.{AllByRecursion};
ghost use Rattle.std.specs.List.Sorted.{IsStrictlySortedBy};
ghost use Rattle.std.specs.Map.{keys_of};
ghost use Rattle.std.specs.declared.cmp.Ordering.TheVariants.{Greater};
ghost use Rattle.sparse.specs.Map.{set, IsSame};
ghost use Rattle.sparse.specs.Tree.{plain_of, entries, IsBalanced, shared};

use crate::tree::Tree;
use crate::{Memory, Sparse};
use std::alloc::Global;
use std::marker::Model;
use std::rc::Rc;

/// A map that is being filled. Contracts see it as the map that it will be.
///
/// As long as the keys ascend, an entry takes one comparison and a place at the end of a list, and the map is
/// made of all entries at once when it is finished. From the first key that does not ascend, an entry takes
/// what it takes in a `Sparse`.
#[derive(Debug, Drop)]
pub struct Builder<K: Ord + Clone, V: Eq + Clone> {
    alloc: Global,
    zero: V,
    filled: FilledEntries<K, V>,
}

impl<K: Ord + Clone, V: Eq + Clone> Model for Builder<K, V> {
    ghost use Rattle.sparse.specs.Map.{Map, map_code, IsReduced};
    ghost use Rattle.sparse.specs.Filled.{entries_of, IsSound};

    ghost Value = { Map K V };

    ghost coded = { map_code K.code V.code };

    ghost view = { λ a. record { default = a.zero; entries = entries_of a.filled } };

    ghost invariant = { λ a. IsReduced K.cmp V.eq (record { default = a.zero; entries = entries_of a.filled }) × IsSound a.filled };
}

impl<K: Ord + Clone, V: Eq + Clone> Builder<K, V> {
    ghost use Rattle.sparse.specs.Map.{empty, IsReduced, ClonesAreEqual};

    /// The map in which every key has the default `zero`, to be filled.
    pub fn make(alloc: Global, zero: V) -> Builder<K, V>
        ensures empty { result ≡ empty zero }
        ensures reduced { IsReduced K.cmp V.eq result }
    {
        Builder {
            alloc,
            zero,
            filled: FilledEntries::Listed(Vec::new(alloc)),
        }
    }

    /// Gives a key a value. A key that is given the default has no entry afterwards. Where there is no
    /// memory the map is as it was.
    pub fn set(&mut self, key: K, value: V) -> Result<(), Memory>
        requires { ClonesAreEqual K.cmp V.eq K.is_clone V.is_clone }
        ensures changed { OnOk result (IsSame K.cmp V.eq (set K.cmp V.eq self.old key value) self.new) }
        ensures refused { OnErr result (self.new ≡ self.old) }
        ensures reduced_before { IsReduced K.cmp V.eq self.old }
        ensures reduced { IsReduced K.cmp V.eq self.new }
    {
        self.filled.change(self.alloc, &self.zero, key, value)
    }

    /// The map, made of its entries. `Memory` where there is no memory.
    pub fn finish(self) -> Result<Sparse<K, V>, Memory>
        ensures same { IfOk result (λ m. m ≡ self) }
        ensures reduced { IfOk result (IsReduced K.cmp V.eq) }
    {
        let root = self.filled.tree(self.alloc)?;
        Ok(Sparse {
            alloc: self.alloc,
            zero: self.zero,
            root,
        })
    }

    /// The entries in ascending order of their keys, moved out. `Memory` where there is no memory.
    pub fn into_entries(self) -> Result<Vec<(K, V)>, Memory>
        ensures entries { IfOk result (λ list. list.items ≡ self.entries) }
        ensures reduced { IsReduced K.cmp V.eq self }
    {
        let shared = self.filled.list(self.alloc)?;
        let mut entries = Vec::with_capacity(self.alloc, shared.len())?;
        for entry in shared {
            entries.push(sole(entry)?)?;
        }
        Ok(entries)
    }
}

/// The entries of a map that is being filled.
#[derive(Debug, Drop)]
enum FilledEntries<K, V> {
    /// As they came, while their keys ascended.
    Listed(Vec<Rc<(K, V)>>),
    /// In a tree, since a key came that did not ascend.
    Settled(Tree<K, V>),
}

/// Whether a key is above all keys of a list.
fn is_above<K: Ord + Drop, V: Drop>(key: &K, list: &[Rc<(K, V)>]) -> bool
    requires { IsStrictlySortedBy K.cmp (keys_of (shared list.now)) }
    ensures { IsTrue result → AllByRecursion (λ q. K.cmp key.now q ≡ Greater) (keys_of (shared list.now)) }
{
    match list.last() {
        Some(last) => key.cmp(&last.0).is_gt(),
        None => true,
    }
}

impl<K: Ord + Drop, V: Eq + Drop> FilledEntries<K, V> {
    ghost use Rattle.sparse.specs.Filled.{entries_of, IsSound};

    /// The tree of the entries.
    fn tree(&self, alloc: Global) -> Result<Tree<K, V>, Memory>
        requires { IsSound self.now }
        ensures entries { IfOk result (λ t. entries (plain_of t) ≡ entries_of self.now) }
        ensures balanced { IfOk result (λ t. IsBalanced (plain_of t)) }
    {
        match self {
            FilledEntries::Listed(list) => Tree::by_halves(alloc, list),
            FilledEntries::Settled(tree) => tree.share(),
        }
    }

    /// The entries in ascending order of their keys.
    fn list(self, alloc: Global) -> Result<Vec<Rc<(K, V)>>, Memory>
        ensures { IfOk result (λ list. shared list.items ≡ entries_of self) }
    {
        match self {
            FilledEntries::Listed(list) => Ok(list),
            FilledEntries::Settled(tree) => {
                let mut list = Vec::new(alloc);
                tree.list_shared(&mut list)?;
                Ok(list)
            }
        }
    }

    /// Gives a key a value, in a map whose default is `zero`. Where there is no memory the entries stay.
    fn change(&mut self, alloc: Global, zero: &V, key: K, value: V) -> Result<(), Memory>
        requires ascending { IsStrictlySortedBy K.cmp (keys_of (entries_of self.old)) }
        requires sound { IsSound self.old }
        ensures same { OnOk result (IsSame K.cmp V.eq
            (set K.cmp V.eq (record { default = zero.now; entries = entries_of self.old }) key value)
            (record { default = zero.now; entries = entries_of self.new })) }
        ensures refused { OnErr result (entries_of self.new ≡ entries_of self.old) }
        ensures sound { IsSound self.new }
    {
        if let FilledEntries::Listed(list) = self {
            if is_above(&key, list) {
                return append(list, alloc, zero, key, value);
            }
        }
        let tree = self.tree(alloc)?;
        *self = FilledEntries::Settled(tree.changed(alloc, zero, key, value)?);
        Ok(())
    }
}

/// Gives a key that is above all keys of a list a value, in a map whose default is `zero`. Where there is no
/// memory the entries stay.
fn append<K: Ord + Drop, V: Eq + Drop>(
    list: &mut Vec<Rc<(K, V)>>,
    alloc: Global,
    zero: &V,
    key: K,
    value: V,
) -> Result<(), Memory>
    requires { AllByRecursion (λ q. K.cmp key q ≡ Greater) (keys_of (shared list.old.items)) }
    ensures same { OnOk result (IsSame K.cmp V.eq
        (set K.cmp V.eq (record { default = zero.now; entries = shared list.old.items }) key value)
        (record { default = zero.now; entries = shared list.new.items })) }
    ensures refused { OnErr result (list.new.items ≡ list.old.items) }
{
    if value == *zero {
        return Ok(());
    }
    list.push(Rc::new(alloc, (key, value))?)?;
    Ok(())
}

/// The entry itself, which has no other owner.
fn sole<K: Drop, V: Drop>(entry: Rc<(K, V)>) -> Result<(K, V), Memory>
    ensures { IfOk result (λ e. e ≡ entry.value) }
{
    // A builder shares its entries with nothing that outlives it, so this never fails.
    Rc::into_inner(entry).ok_or(Memory)
}
