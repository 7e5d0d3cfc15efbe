// Copies, and states in which nothing is held.
ghost use Rattle.std.specs.Prelude.{◌≡◌, ◌≤◌, All, IfOk, [], replicate, true};
ghost use Rattle.std.specs.List.{AllZip};
ghost use Rattle.std.specs.Ordering.{nat_cmp};
ghost use Rattle.std.specs.Map.{keys_of, values_of};
ghost use Rattle.std.specs.declared.cmp.Ordering.TheVariants.{Equal};
ghost use Rattle.sparse.specs.Map.{borrowed, empty, keys, ClonesAreEqual, IsSame};
ghost use Rattle.vb_value.specs.Fraction.{none};
ghost use Rattle.vb_value.specs.Key.{key_cmp};
ghost use Rattle.viper_state.specs.Greatest.{AreWithin, IsAtMost};
ghost use Rattle.viper_state.specs.Within.{HasValues};
ghost use Rattle.viper_state.specs.Loose.{AreListed, is_listed, lists_of};
ghost use Rattle.viper_state.specs.State as s;
ghost use Rattle.viper_state.specs.View.{memo_of, state_of};

use crate::known::raise;
use crate::{Known, Memo, State};
use sparse::Sparse;
use std::alloc::Global;
use vb_base::Memory;
use vb_value::{Frac, Layout, Value};

/// The same heap and contents again. `Memory` where there is no memory.
pub fn copy_memo(alloc: Global, memo: &Memo) -> Result<Memo, Memory>
    ensures { IfOk result (λ copy. memo_of copy ≡ memo_of memo.now) }
{
    Ok(Memo {
        heap: copied(alloc, &memo.heap)?,
        content: copied(alloc, &memo.content)?,
    })
}

/// The same state again. It does not know what came loose, since that takes more than a copy does; how great references are it
/// knows as well as the state. `Memory` where there is no memory.
pub fn copy_state(alloc: Global, state: &State) -> Result<State, Memory>
    ensures { IfOk result (λ copy. state_of copy ≡ state_of state.now) }
{
    Ok(State {
        heap: copied(alloc, &state.heap)?,
        content: copied(alloc, &state.content)?,
        mask: copied(alloc, &state.mask)?,
        amount: copied(alloc, &state.amount)?,
        known: nothing_listed(alloc, state.known.greatest),
    })
}

/// The state with this heap and these contents, in which nothing is held. `Memory` where there is no memory.
pub fn empty_state(alloc: Global, layout: &Layout, memo: &Memo) -> Result<State, Memory>
    ensures { IfOk result (λ state. state_of state ≡ s.empty_state layout.now (memo_of memo.now)) }
{
    let mask = empty_maps(alloc, layout.fields.len())?;
    let amount = empty_maps(alloc, layout.keys.len())?;
    let copy = copy_memo(alloc, memo)?;
    let known = keys_known(alloc, &copy, 0)?;
    let Memo { heap, content } = copy;
    Ok(State {
        heap,
        content,
        mask,
        amount,
        known,
    })
}

/// The keys of a heap and contents. Where these become a state's own, values stand at no others. And the greatest reference that
/// the heap has as a value, or `least` where that is greater. `Memory` where there is no memory.
pub fn keys_known(alloc: Global, memo: &Memo, least: u64) -> Result<Known, Memory>
    ensures references { IfOk result (λ known. AreListed nat_cmp memo.now.heap.items (lists_of known.references.items)) }
    ensures keys { IfOk result (λ known. AreListed key_cmp memo.now.content.items (lists_of known.keys.items)) }
    ensures within { IfOk result (λ known. AreWithin known.greatest memo.now.heap.items) }
    ensures least { IfOk result (λ known. least ≤ known.greatest) }
{
    let (references, greatest) = heap_known(alloc, &memo.heap, least)?;
    Ok(Known {
        references,
        keys: all_listed(alloc, &memo.content)?,
        greatest,
    })
}

/// No lists, and this number.
fn nothing_listed(alloc: Global, greatest: u64) -> Known
    ensures references { result.references.items ≡ [] }
    ensures keys { result.keys.items ≡ [] }
    ensures greatest { result.greatest ≡ greatest }
{
    Known {
        references: Vec::new(alloc),
        keys: Vec::new(alloc),
        greatest,
    }
}

/// The keys of entries.
fn listed<K: Ord + Clone + Drop, V>(alloc: Global, entries: &[&(K, V)]) -> Result<Vec<K>, Memory>
    requires { (k q : K) → K.is_clone k q → K.cmp k q ≡ Equal }
    ensures { IfOk result (λ list. (k : K) → is_listed K.cmp (keys_of (borrowed entries.now)) k ≡ true → is_listed K.cmp list.items k ≡ true) }
{
    let mut list = Vec::with_capacity(alloc, entries.len())?;
    for entry in entries {
        list.push(entry.0.clone()?)?;
    }
    Ok(list)
}

/// The greatest reference among the values of entries, or `least` where that is greater.
fn greatest_among(entries: &[&(u64, Value)], least: u64) -> u64
    ensures within { All (IsAtMost result) (values_of (borrowed entries.now)) }
    ensures least { least ≤ result }
{
    let mut greatest = least;
    for entry in entries {
        raise(&mut greatest, &entry.1);
    }
    greatest
}

/// The keys of the heap of a field, and the greatest reference that it has as a value, or `least` where that is greater.
fn field_known(
    alloc: Global,
    heap: &Sparse<u64, Value>,
    least: u64,
) -> Result<(Vec<u64>, u64), Memory>
    ensures keys { IfOk result (λ known. (k : _) → is_listed nat_cmp (keys heap.now) k ≡ true → is_listed nat_cmp known.0.items k ≡ true) }
    ensures within { IfOk result (λ known. HasValues (IsAtMost known.1) heap.now) }
    ensures least { IfOk result (λ known. least ≤ known.1) }
{
    let entries = heap.entries()?;
    let list = listed(alloc, &entries)?;
    let mut greatest = greatest_among(&entries, least);
    raise(&mut greatest, heap.default());
    Ok((list, greatest))
}

/// The same of the heaps of all fields.
fn heap_known(
    alloc: Global,
    heaps: &[Sparse<u64, Value>],
    least: u64,
) -> Result<(Vec<Vec<u64>>, u64), Memory>
    ensures keys { IfOk result (λ known. AreListed nat_cmp heaps.now (lists_of known.0.items)) }
    ensures within { IfOk result (λ known. AreWithin known.1 heaps.now) }
    ensures least { IfOk result (λ known. least ≤ known.1) }
{
    let mut lists = Vec::with_capacity(alloc, heaps.len())?;
    let mut greatest = least;
    for heap in heaps {
        let (list, greater) = field_known(alloc, heap, greatest)?;
        lists.push(list)?;
        greatest = greater;
    }
    Ok((lists, greatest))
}

/// The keys of all maps.
fn all_listed<K: Ord + Clone + Drop, V: Eq + Clone + Drop>(
    alloc: Global,
    maps: &[Sparse<K, V>],
) -> Result<Vec<Vec<K>>, Memory>
    requires { ClonesAreEqual K.cmp V.eq K.is_clone V.is_clone }
    ensures { IfOk result (λ lists. AreListed K.cmp maps.now (lists_of lists.items)) }
{
    let mut lists = Vec::with_capacity(alloc, maps.len())?;
    for map in maps {
        let entries = map.entries()?;
        lists.push(listed(alloc, &entries)?)?;
    }
    Ok(lists)
}

fn copied<K: Ord + Clone + Drop, V: Eq + Clone + Drop>(
    alloc: Global,
    maps: &[Sparse<K, V>],
) -> Result<Vec<Sparse<K, V>>, Memory>
    requires { ClonesAreEqual K.cmp V.eq K.is_clone V.is_clone }
    ensures { IfOk result (λ copies. AllZip (IsSame K.cmp V.eq) maps.now copies.items) }
{
    let mut copies = Vec::with_capacity(alloc, maps.len())?;
    for map in maps {
        copies.push(map.copy()?)?;
    }
    Ok(copies)
}

/// So many maps in which every key has no permission.
fn empty_maps<K: Ord + Clone + Drop>(
    alloc: Global,
    count: usize,
) -> Result<Vec<Sparse<K, Frac>>, Memory>
    ensures { IfOk result (λ maps. maps.items ≡ replicate count (empty none)) }
{
    let mut maps = Vec::with_capacity(alloc, count)?;
    for _ in 0..count {
        maps.push(Sparse::make(alloc, Frac::none())?)?;
    }
    Ok(maps)
}
