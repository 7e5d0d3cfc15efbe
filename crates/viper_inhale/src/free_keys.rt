// The keys of a map at which nothing is held.
ghost use Rattle.std.specs.Prelude.{◌≡◌, Contains, IfErr, IfOk, IfSome, IsTrue, Some, filter, slice_get};
ghost use Rattle.std.specs.Map.{keys_of};
ghost use Rattle.std.specs.declared.cmp.Ordering.TheVariants.{Equal};
ghost use Rattle.sparse.specs.Map.{borrowed, keys, IsReduced};
ghost use Rattle.vb_value.specs.Value.{fraction_eq};
ghost use Rattle.viper_state.specs.Loose.{IsLooseAmong, lists_of};
ghost use Rattle.viper_inhale.specs.Free.{is_free, AreFree};
ghost use Rattle.viper_inhale.specs.declared.answers.StepHalt.TheVariants as halt;

use crate::answers::StepHalt;
use sparse::Sparse;
use std::alloc::Global;
use std::cmp::Ordering;
use vb_value::Frac;

/// To look a key up in a map takes about as long as to go through so many of its entries.
const ENTRIES_A_LOOK: usize = 16;

/// The keys of a map.
pub(crate) fn all_keys<K: Ord + Clone + Drop, V: Eq + Clone + Drop>(
    alloc: Global,
    map: &Sparse<K, V>,
) -> Result<Vec<&K>, StepHalt>
    ensures keys { IfOk result (λ list. borrowed list.items ≡ keys map.now) }
    ensures memory { IfErr result (λ h. h ≡ halt.Memory) }
{
    let entries = map.entries()?;
    let mut list = Vec::with_capacity(alloc, entries.len())?;
    for entry in entries.as_slice() {
        list.push(&entry.0)?;
    }
    Ok(list)
}

/// Looks for a key among entries in ascending order, from an index on: the index where the search for a greater key continues, and
/// whether an entry has the key.
fn sought<K: Ord, V>(entries: &[&(K, V)], start: usize, key: &K) -> (usize, bool)
    requires { (k q : K) → K.cmp k q ≡ Equal → k ≡ q }
    ensures { IsTrue result.1 → Contains (keys_of (borrowed entries.now)) key.now }
{
    for i in start..entries.len() {
        match key.cmp(&entries[i].0) {
            Ordering::Less => return (i, false),
            Ordering::Equal => return (i + 1, true),
            Ordering::Greater => {}
        }
    }
    (entries.len(), false)
}

/// The entries of a map, among which so many keys are looked for, or none where each key is better looked up by itself.
fn entries_beside<K: Ord + Clone + Drop>(
    alloc: Global,
    map: &Sparse<K, Frac>,
    sought: usize,
) -> Result<Vec<&(K, Frac)>, StepHalt>
    ensures within { IfOk result (λ list. (k : K) → Contains (keys_of (borrowed list.items)) k → Contains (keys map.now) k) }
    ensures reduced { IfOk result (λ _. IsReduced K.cmp fraction_eq map.now) }
    ensures memory { IfErr result (λ h. h ≡ halt.Memory) }
{
    if sought < map.len() / ENTRIES_A_LOOK {
        return Ok(Vec::new(alloc));
    }
    Ok(map.entries()?)
}

/// Whether nothing is held at a key, which has an entry if `stands`.
fn is_free<K: Ord + Clone + Drop>(held: &Sparse<K, Frac>, stands: bool, key: &K) -> bool
    requires exact { (k q : K) → K.cmp k q ≡ Equal → k ≡ q }
    requires stands { IsTrue stands → Contains (keys held.now) key.now }
    requires reduced { IsReduced K.cmp fraction_eq held.now }
    ensures { result ≡ is_free K.cmp held.now key.now }
{
    if stands {
        return false;
    }
    *held.get(key) == *held.default()
}

/// The keys of a map at which nothing is held, in ascending order. Both maps are gone through at once, so only what is not held
/// is looked up; but few keys are each looked up by themselves.
pub(crate) fn free_keys<'a, K: Ord + Clone + Drop, V: Eq + Clone + Drop>(
    alloc: Global,
    map: &'a Sparse<K, V>,
    held: &Sparse<K, Frac>,
) -> Result<Vec<&'a K>, StepHalt>
    requires { (k q : K) → K.cmp k q ≡ Equal → k ≡ q }
    ensures free { IfOk result (λ list. borrowed list.items ≡ filter (is_free K.cmp held.now) (keys map.now)) }
    ensures map_reduced { IfOk result (λ _. IsReduced K.cmp V.eq map.now) }
    ensures held_reduced { IfOk result (λ _. IsReduced K.cmp fraction_eq held.now) }
    ensures memory { IfErr result (λ h. h ≡ halt.Memory) }
{
    let entries = map.entries()?;
    let all = entries_beside(alloc, held, entries.len())?;
    let mut list = Vec::new(alloc);
    let mut next = 0;
    for entry in entries.as_slice() {
        let (after, stands) = sought(&all, next, &entry.0);
        next = after;
        if is_free(held, stands, &entry.0) {
            list.push(&entry.0)?;
        }
    }
    Ok(list)
}

/// Those of some keys at which nothing is held.
fn free_among<'a, K: Ord + Clone + Drop>(
    alloc: Global,
    keys: &'a [K],
    held: &Sparse<K, Frac>,
) -> Result<Vec<&'a K>, StepHalt>
    requires { (k q : K) → K.cmp k q ≡ Equal → k ≡ q }
    ensures free { IfOk result (λ list. borrowed list.items ≡ filter (is_free K.cmp held.now) keys.now) }
    ensures held_reduced { IsReduced K.cmp fraction_eq held.now }
    ensures memory { IfErr result (λ h. h ≡ halt.Memory) }
{
    // `default` tells of the map that it is reduced, which `is_free` asks, also of no keys at all.
    let _none = held.default();
    let mut list = Vec::new(alloc);
    for key in keys {
        if is_free(held, false, key) {
            list.push(key)?;
        }
    }
    Ok(list)
}

/// The keys of a map at which nothing is held, and maybe others at which nothing is held: of a list in which they stand, where
/// there is one.
pub(crate) fn loose_keys<'a, K: Ord + Clone + Drop, V: Eq + Clone + Drop>(
    alloc: Global,
    map: &'a Sparse<K, V>,
    held: &Sparse<K, Frac>,
    loose: Option<&'a Vec<K>>,
) -> Result<Vec<&'a K>, StepHalt>
    requires exact { (k q : K) → K.cmp k q ≡ Equal → k ≡ q }
    requires known { IfSome loose (λ list. IsLooseAmong K.cmp map.now held.now list.now.items) }
    ensures free { IfOk result (λ list. AreFree K.cmp (keys map.now) held.now (borrowed list.items)) }
    ensures memory { IfErr result (λ h. h ≡ halt.Memory) }
{
    match loose {
        Some(list) => free_among(alloc, list, held),
        None => free_keys(alloc, map, held),
    }
}

/// The list of this number, if there is one.
pub(crate) fn list_of<K: Drop>(lists: &[Vec<K>], number: usize) -> Option<&Vec<K>>
    ensures { IfSome result (λ list. slice_get (lists_of lists.now) number ≡ Some list.now.items) }
{
    match lists.get(number) {
        Some(list) => Some(list),
        None => None,
    }
}
