//! Sets of keys that mostly come in ascending order.
#![tactic(auto)]

ghost use Rattle.std.specs.Prelude.{◌≡◌, ◌++◌, [], IfOk, OnOk, OnErr, not};
ghost use Rattle.std.specs.List.Sorted.{IsStrictlySortedBy};
ghost use Rattle.std.specs.BTreeSet.{contains, insert_key, IsEmpty, IsOrdered, IsUnchanged};
ghost use Rattle.sorted_set.specs.Above.{order_above};

use std::alloc::{AllocError, Global};
use std::cmp::Ordering;
use std::collections::BTreeSet;
use std::marker::Model;

/// A set of keys that mostly come in ascending order. Contracts see it as they see a `BTreeSet`.
///
/// As long as each new key is above the last, it takes one comparison and a place at the end of a list. The
/// first key below the last moves all of them into a tree, and a key takes what it takes in a `BTreeSet` from
/// then on, until the set is cleared.
#[derive(Drop)]
pub struct Rising<K: Ord> {
    /// In ascending order.
    listed: Vec<K>,
    /// Above those that are listed.
    settled: BTreeSet<K>,
}

impl<K: Ord> Model for Rising<K> {
    ghost use Rattle.std.specs.Prelude.{◌++◌};
    ghost use Rattle.std.specs.List.Sorted.{IsStrictlySortedBy};
    ghost use Rattle.std.specs.BTreeSet.{BTreeSet as Seen};

    ghost Value = { Seen K };

    ghost view = { λ a. record { keys = a.listed.items ++ a.settled.keys } };

    ghost invariant = { λ a. IsStrictlySortedBy K.cmp (a.listed.items ++ a.settled.keys) };
}

impl<K: Ord + Drop> Rising<K> {
    /// The set with no keys.
    pub fn new(alloc: Global) -> Rising<K>
        ensures { IsEmpty result }
    {
        Rising {
            listed: Vec::new(alloc),
            settled: BTreeSet::new(alloc),
        }
    }

    /// Adds a key, and tells whether it is new. If it is not, the key that is there stays. Where there is no
    /// memory the set is as it was.
    pub fn insert(&mut self, key: K) -> Result<bool, AllocError>
        ensures added { IfOk result (λ added. added ≡ not (contains K.cmp self.old key)) }
        ensures keys { OnOk result (self.new.keys ≡ insert_key K.cmp self.old.keys key) }
        ensures refused { OnErr result (IsUnchanged self.old self.new) }
        ensures ordered { IsOrdered K.cmp self.new }
    {
        if self.settled.is_empty() {
            match order_above_last(&key, &self.listed) {
                Ordering::Greater => {
                    self.listed.push(key)?;
                    return Ok(true);
                }
                Ordering::Equal => return Ok(false),
                Ordering::Less => {}
            }
        }
        settle(&mut self.listed, &mut self.settled)?;
        Ok(self.settled.insert(key)?)
    }

    /// Drops all keys.
    pub fn clear(&mut self)
        ensures { IsEmpty self.new }
    {
        self.listed.clear();
        self.settled.clear();
    }
}

/// How a key compares to the last of a list; to an empty list as one above.
fn order_above_last<K: Ord>(key: &K, list: &[K]) -> Ordering
    ensures { result ≡ order_above K.cmp list.now key.now }
{
    match list.last() {
        Some(last) => key.cmp(last),
        None => Ordering::Greater,
    }
}

/// Moves the listed keys to those that are settled, all of which are above them. Where there is no memory the
/// keys are the same all together.
fn settle<K: Ord + Drop>(listed: &mut Vec<K>, settled: &mut BTreeSet<K>) -> Result<(), AllocError>
    requires { IsStrictlySortedBy K.cmp (listed.old.items ++ settled.old.keys) }
    ensures same { listed.new.items ++ settled.new.keys ≡ listed.old.items ++ settled.old.keys }
    ensures moved { OnOk result (listed.new.items ≡ []) }
{
    while let Some(key) = listed.pop() {
        if let Err(refused) = settled.insert(key) {
            // There is room for it, since it has just left.
            let _ = listed.push(refused.value);
            return Err(AllocError);
        }
    }
    Ok(())
}
