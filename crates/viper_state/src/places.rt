// Reading and changing one place or instance of a state.
ghost use Rattle.std.specs.Prelude.{◌≡◌, false, true, Some, IfOk, IsTrue, OnOk, OnErr, slice_get};
ghost use Rattle.std.specs.List.{AllZip};
ghost use Rattle.std.specs.Option.{option_map};
ghost use Rattle.std.specs.Ordering.{nat_cmp};
ghost use Rattle.std.specs.declared.cmp.Ordering.TheVariants.{Equal};
ghost use Rattle.sparse.specs.Map.{keys, ClonesAreEqual, IsSame, Map};
ghost use Rattle.vb_value.specs.Fraction.{Fraction};
ghost use Rattle.vb_value.specs.Key.{key_cmp};
ghost use Rattle.vb_value.specs.Value.{fraction_eq};
ghost use Rattle.vb_value.specs.View.{content_of};
ghost use Rattle.viper_state.specs.State as s;
ghost use Rattle.viper_state.specs.Greatest.{AreWithin};
ghost use Rattle.viper_state.specs.Loose.{AreKept, AreLooseAmong, IsNoted, KnowsLoose, is_listed, lists_of};
ghost use Rattle.viper_state.specs.View.{memo_of, state_of};

use crate::known::raise;
use crate::{Known, Memo, State};
use sparse::Sparse;
use vb_base::Memory;
use vb_value::{Content, Frac, Key, Value};

impl State {
    /// The value of a field at a reference. None where no field has that number.
    pub fn value_at(&self, field: u32, reference: u64) -> Option<Value>
        ensures { result ≡ s.value_at (state_of self.now) field reference }
    {
        found(&self.heap, field, &reference).copied()
    }

    /// The permission to a field at a reference. None where no field has that number.
    pub fn mask_at(&self, field: u32, reference: u64) -> Option<Frac>
        ensures { result ≡ s.mask_at (state_of self.now) field reference }
    {
        found(&self.mask, field, &reference).copied()
    }

    /// How much of an instance is held. None where no predicate has that number.
    pub fn amount_at(&self, predicate: u32, key: &Key) -> Option<Frac>
        ensures { result ≡ s.amount_at (state_of self.now) predicate key.now }
    {
        found(&self.amount, predicate, key).copied()
    }

    /// What an instance contains. None where no predicate has that number.
    pub fn content_at(&self, predicate: u32, key: &Key) -> Option<&Content>
        ensures { option_map (λ c. content_of c.now) result ≡ s.content_at (state_of self.now) predicate key.now }
    {
        found(&self.content, predicate, key)
    }

    /// Gives a field at a reference a value. None, and nothing changes, where no field has that number.
    /// `Memory` where there is no memory.
    pub fn set_value(
        &mut self,
        field: u32,
        reference: u64,
        value: Value,
    ) -> Result<Option<()>, Memory>
        ensures found { IfOk result (λ known. known ≡ option_map (λ _. tt) (s.value_at (state_of self.old) field reference)) }
        ensures changed { OnOk result (state_of self.new ≡ s.with_value (state_of self.old) field reference value) }
    {
        note_value(&mut self.known.references, &self.mask, field, &reference)?;
        raise(&mut self.known.greatest, &value);
        set_in(&mut self.heap, field, reference, value)
    }

    /// Sets the permission to a field at a reference. None, and nothing changes, where no field has that number.
    /// `Memory` where there is no memory.
    pub fn set_mask(
        &mut self,
        field: u32,
        reference: u64,
        permission: Frac,
    ) -> Result<Option<()>, Memory>
        ensures found { IfOk result (λ known. known ≡ option_map (λ _. tt) (s.mask_at (state_of self.old) field reference)) }
        ensures changed { OnOk result (state_of self.new ≡ s.with_mask (state_of self.old) field reference permission) }
    {
        let lists = &mut self.known.references;
        note_permission(lists, &self.mask, field, &reference, permission)?;
        set_in(&mut self.mask, field, reference, permission)
    }

    /// Sets how much of an instance is held. None, and nothing changes, where no predicate has that number.
    /// `Memory` where there is no memory.
    pub fn set_amount(
        &mut self,
        predicate: u32,
        key: Key,
        amount: Frac,
    ) -> Result<Option<()>, Memory>
        ensures found { IfOk result (λ known. known ≡ option_map (λ _. tt) (s.amount_at (state_of self.old) predicate key)) }
        ensures changed { OnOk result (state_of self.new ≡ s.with_amount (state_of self.old) predicate key amount) }
    {
        note_permission(&mut self.known.keys, &self.amount, predicate, &key, amount)?;
        set_in(&mut self.amount, predicate, key, amount)
    }

    /// Gives an instance a content. None, and nothing changes, where no predicate has that number.
    /// `Memory` where there is no memory.
    pub fn set_content(
        &mut self,
        predicate: u32,
        key: Key,
        content: Content,
    ) -> Result<Option<()>, Memory>
        ensures found { IfOk result (λ known. known ≡ option_map (λ _. tt) (s.content_at (state_of self.old) predicate key)) }
        ensures changed { OnOk result (state_of self.new ≡ s.with_content (state_of self.old) predicate key (content_of content)) }
    {
        note_value(&mut self.known.keys, &self.amount, predicate, &key)?;
        set_in(&mut self.content, predicate, key, content)
    }

    /// For each field references, among which is each that has a value and of which nothing is held. A list may be missing.
    pub fn loose_references(&self) -> &[Vec<u64>]
        ensures { AreLooseAmong nat_cmp self.now.heap.items self.now.mask.items (lists_of result.now) }
    {
        &self.known.references
    }

    /// For each predicate keys of instances, likewise.
    pub fn loose_keys(&self) -> &[Vec<Key>]
        ensures { AreLooseAmong key_cmp self.now.content.items self.now.amount.items (lists_of result.now) }
    {
        &self.known.keys
    }

    /// A number that no value of the heap is a greater reference than.
    pub fn greatest(&self) -> u64
        ensures { AreWithin result self.now.heap.items }
    {
        self.known.greatest
    }

    /// Gives the state another heap and other contents. What is held stays, what is loose is among these keys, and no value of
    /// the heap is a greater reference than this knows.
    pub fn take_memo(&mut self, memo: Memo, known: Known)
        requires loose { KnowsLoose memo.heap.items memo.content.items self.old.mask.items self.old.amount.items known }
        requires greatest { AreWithin known.greatest memo.heap.items }
        ensures { state_of self.new ≡ record (state_of self.old) { heap = (memo_of memo).heap; content = (memo_of memo).content } }
    {
        let Memo { heap, content } = memo;
        self.heap = heap;
        self.content = content;
        self.known = known;
    }
}

/// Adds a key to the list of this number, if there is one.
fn note<K: Ord + Clone + Drop>(lists: &mut Vec<Vec<K>>, number: u32, key: &K) -> Result<(), Memory>
    requires { (k q : K) → K.is_clone k q → K.cmp k q ≡ Equal }
    ensures kept { AreKept K.cmp (lists_of lists.old.items) (lists_of lists.new.items) }
    ensures noted { OnOk result (IsNoted K.cmp (lists_of lists.new.items) number key.now) }
{
    let copy = key.clone()?;
    match lists.get_mut(number as usize) {
        Some(list) => Ok(list.push(copy)?),
        None => Ok(()),
    }
}

/// Whether something is held at a key of the map of this number.
fn is_held<K: Ord + Clone + Drop>(masks: &[Sparse<K, Frac>], number: u32, key: &K) -> bool
    ensures { IsTrue result → (held : Map K Fraction) → slice_get masks.now number ≡ Some held → is_listed K.cmp (keys held) key.now ≡ true }
{
    match masks.get(number as usize) {
        Some(held) => *held.get(key) != *held.default(),
        None => true,
    }
}

/// Notes a key that is given a value, where nothing is held.
fn note_value<K: Ord + Clone + Drop>(
    lists: &mut Vec<Vec<K>>,
    masks: &[Sparse<K, Frac>],
    number: u32,
    key: &K,
) -> Result<(), Memory>
    requires { (k q : K) → K.is_clone k q → K.cmp k q ≡ Equal }
    ensures kept { AreKept K.cmp (lists_of lists.old.items) (lists_of lists.new.items) }
    ensures noted { OnOk result ((held : Map K Fraction) → slice_get masks.now number ≡ Some held → is_listed K.cmp (keys held) key.now ≡ false
        → IsNoted K.cmp (lists_of lists.new.items) number key.now) }
{
    if is_held(masks, number, key) {
        return Ok(());
    }
    note(lists, number, key)
}

/// Whether a key of the map of this number that is given this permission is held from then on.
fn holds<K: Ord + Clone + Drop>(masks: &[Sparse<K, Frac>], number: u32, permission: Frac) -> bool
    ensures { IsTrue result → (held : Map K Fraction) → slice_get masks.now number ≡ Some held → fraction_eq permission held.default ≡ false }
{
    match masks.get(number as usize) {
        Some(held) => permission != *held.default(),
        None => true,
    }
}

/// Notes a key that is given a permission, where that is none.
fn note_permission<K: Ord + Clone + Drop>(
    lists: &mut Vec<Vec<K>>,
    masks: &[Sparse<K, Frac>],
    number: u32,
    key: &K,
    permission: Frac,
) -> Result<(), Memory>
    requires { (k q : K) → K.is_clone k q → K.cmp k q ≡ Equal }
    ensures kept { AreKept K.cmp (lists_of lists.old.items) (lists_of lists.new.items) }
    ensures noted { OnOk result ((held : Map K Fraction) → slice_get masks.now number ≡ Some held → fraction_eq permission held.default ≡ true
        → IsNoted K.cmp (lists_of lists.new.items) number key.now) }
{
    if holds(masks, number, permission) {
        return Ok(());
    }
    note(lists, number, key)
}

/// The value at a key in the map of this number. None where no map has it.
fn found<'a, K: Ord + Clone + Drop, V: Eq + Clone + Drop>(
    maps: &'a [Sparse<K, V>],
    number: u32,
    key: &K,
) -> Option<&'a V>
    ensures { option_map (λ v. v.now) result ≡ s.found_at K.cmp maps.now number key.now }
{
    Some(maps.get(number as usize)?.get(key))
}

/// Gives a key a value in the map of this number. None, and nothing changes, where no map has it.
fn set_in<K: Ord + Clone + Drop, V: Eq + Clone + Drop>(
    maps: &mut Vec<Sparse<K, V>>,
    number: u32,
    key: K,
    value: V,
) -> Result<Option<()>, Memory>
    requires { ClonesAreEqual K.cmp V.eq K.is_clone V.is_clone }
    ensures found { IfOk result (λ known. known ≡ option_map (λ _. tt) (s.found_at K.cmp maps.old.items number key)) }
    ensures changed { OnOk result (AllZip (IsSame K.cmp V.eq) (s.changed_at K.cmp V.eq maps.old.items number key value) maps.new.items) }
    ensures refused { OnErr result (maps.new.items ≡ maps.old.items) }
{
    match maps.get_mut(number as usize) {
        Some(map) => Ok(Some(map.set(key, value)?)),
        None => Ok(None),
    }
}
