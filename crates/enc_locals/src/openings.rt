// Where a run of a unit's procedure begins: the variables that an opening sets.
ghost use Rattle.std.specs.Prelude.{◌≡◌, ◌<◌, ◌+◌, ◌++◌, [], ◌∷◌, All, length, map, IfOk, OnOk};
ghost use Rattle.sparse.specs.Map.{keys, set};
ghost use Rattle.vb_value.specs.Key.{key_cmp};
ghost use Rattle.viper_core.specs.View.{program_of};
ghost use Rattle.viper_state.specs.View.{contents_of, opening_of};
ghost use Rattle.viper_meaning.specs.Units.{Opens};
ghost use Rattle.boogie_tree.specs.Value as b;
ghost use Rattle.boogie_tree.specs.Whole.{scalar_of, setting_of, value_of};
ghost use Rattle.boogie_meaning.specs.Run.{filled};
ghost use Rattle.moves.specs.Scalars as s;
ghost use Rattle.enc_expr.specs.Front as front;
ghost use Rattle.enc_locals.specs.Filled.{IsTidy, content_image, entries_from, heap_image, map_of};
ghost use Rattle.enc_locals.specs.Opened.{IsNamedSetting, settings_from, start_settings};

use crate::named::named_settings;
use boogie_tree::{BScalar, BSetting, BValue};
use moves::{instance_key, place_key, scalar};
use sparse::Sparse;
use std::alloc::Global;
use vb_base::Memory;
use vb_value::{Content, Key, Value};
use viper_core::Program;
use viper_state::Opening;

/// The variables that an opening of a unit, by its number, sets in the unit's procedure, with their values. All others have their
/// defaults where a run begins. `Memory` where there is no memory.
pub fn start_env(
    alloc: Global,
    program: &Program,
    unit: u32,
    opening: &Opening,
) -> Result<Vec<BSetting>, Memory>
    // so no two instances of a predicate have one key
    requires opens { Opens (program_of program.now) unit (opening_of opening.now) }
    ensures settings { IfOk result (λ settings. map setting_of settings.items ≡ start_settings (opening_of opening.now)) }

    // each reference of the code is below 2^64
    ensures named { IfOk result (λ settings. All IsNamedSetting (map setting_of settings.items)) }
{
    // The opening, which fits the unit, holds all that is asked of them.
    let _ = program;
    let _ = unit;
    let values = front_values(alloc, opening)?;
    let settings = numbered(alloc, values)?;
    named_settings(&settings);
    Ok(settings)
}

/// Variables that have these values, from the first one on.
fn numbered(alloc: Global, values: Vec<BValue>) -> Result<Vec<BSetting>, Memory>
    ensures { IfOk result (λ settings. map setting_of settings.items ≡ settings_from 0 (map value_of values.items)) }
{
    let mut settings = Vec::with_capacity(alloc, values.len())?;
    let mut values = values.into_iter();
    while let Some(value) = values.next() {
        add_setting(&mut settings, value)?;
    }
    Ok(settings)
}

/// One more variable, with this value.
fn add_setting(settings: &mut Vec<BSetting>, value: BValue) -> Result<(), Memory>
    ensures added { OnOk result (map setting_of settings.new.items
        ≡ map setting_of settings.old.items ++ record { var = length settings.old.items; value = value_of value } ∷ []) }
    ensures many { OnOk result (length settings.new.items ≡ length settings.old.items + 1) }
{
    let var = settings.len();
    settings.push(BSetting { var, value })?;
    Ok(())
}

// ---- the values

/// The values of the variables that an opening sets, in their order.
fn front_values(alloc: Global, opening: &Opening) -> Result<Vec<BValue>, Memory>
    requires heaps { All (λ h. IsTidy (heap_image h)) (opening_of opening.now).memo.heap }
    requires contents { All (λ c. IsTidy (content_image c)) (opening_of opening.now).memo.content }
    ensures { IfOk result (λ values. map value_of values.items ≡ front.front_values (opening_of opening.now)) }
{
    let mut values = Vec::new(alloc);
    add_store(&opening.store, &mut values)?;
    add_heaps(alloc, &opening.memo.heap, &mut values)?;
    add_contents(alloc, &opening.memo.content, &mut values)?;
    Ok(values)
}

/// One more value.
fn add_value(values: &mut Vec<BValue>, value: BValue) -> Result<(), Memory>
    ensures { OnOk result (map value_of values.new.items ≡ map value_of values.old.items ++ value_of value ∷ []) }
{
    values.push(value)?;
    Ok(())
}

/// The values of the store.
fn add_store(store: &[Value], values: &mut Vec<BValue>) -> Result<(), Memory>
    ensures { OnOk result (map value_of values.new.items ≡ map value_of values.old.items ++ map (λ v. b.One (s.scalar v)) store.now) }
{
    for value in store {
        add_value(values, BValue::One(scalar(*value)))?;
    }
    Ok(())
}

/// The heap of each field.
fn add_heaps(
    alloc: Global,
    heaps: &[Sparse<u64, Value>],
    values: &mut Vec<BValue>,
) -> Result<(), Memory>
    requires { All (λ h. IsTidy (heap_image h)) heaps.now }
    ensures { OnOk result (map value_of values.new.items ≡ map value_of values.old.items ++ map (λ h. b.Many (heap_image h)) heaps.now) }
{
    for heap in heaps {
        add_value(values, BValue::Map(heap_map(alloc, heap)?))?;
    }
    Ok(())
}

/// The contents of each predicate.
fn add_contents(
    alloc: Global,
    contents: &[Sparse<Key, Content>],
    values: &mut Vec<BValue>,
) -> Result<(), Memory>
    requires { All (λ c. IsTidy (content_image c)) (map contents_of contents.now) }
    ensures { OnOk result (map value_of values.new.items
        ≡ map value_of values.old.items ++ map (λ c. b.Many (content_image c)) (map contents_of contents.now)) }
{
    for held in contents {
        add_value(values, BValue::Map(content_map(alloc, held)?))?;
    }
    Ok(())
}

// ---- maps

/// Gives a map a value at a key.
fn put(map: &mut Sparse<Key, BScalar>, key: Key, value: BScalar) -> Result<(), Memory>
    ensures { OnOk result (map_of map.new ≡ set key_cmp b.same_scalar (map_of map.old) key (scalar_of value)) }
{
    map.set(key, value)
}

/// Puts the entry of this index of a heap into a map.
fn put_place(
    heap: &Sparse<u64, Value>,
    i: usize,
    map: &mut Sparse<Key, BScalar>,
) -> Result<(), Memory>
    requires { i < length (keys heap.now) }
    ensures { OnOk result (filled (map_of map.old) (entries_from (heap_image heap.now) i)
        ≡ filled (map_of map.new) (entries_from (heap_image heap.now) (i + 1))) }
{
    let reference = *heap.key_at(i);
    put(map, place_key(reference), scalar(*heap.get(&reference)))
}

/// A heap as a map of Boogie.
fn heap_map(alloc: Global, heap: &Sparse<u64, Value>) -> Result<Sparse<Key, BScalar>, Memory>
    requires { IsTidy (heap_image heap.now) }
    ensures { IfOk result (λ map. map_of map ≡ heap_image heap.now) }
{
    let mut map = Sparse::make(alloc, scalar(*heap.default()))?;
    for i in 0..heap.len() {
        put_place(heap, i, &mut map)?;
    }
    Ok(map)
}

/// Puts the entry of this index of contents into a map.
fn put_instance(
    contents: &Sparse<Key, Content>,
    i: usize,
    map: &mut Sparse<Key, BScalar>,
) -> Result<(), Memory>
    requires { i < length (keys contents.now) }
    ensures { OnOk result (filled (map_of map.old) (entries_from (content_image (contents_of contents.now)) i)
        ≡ filled (map_of map.new) (entries_from (content_image (contents_of contents.now)) (i + 1))) }
{
    let arguments = contents.key_at(i);
    let content = contents.get(arguments).clone()?;
    let key = instance_key(arguments)?;
    put(map, key, BScalar::Snap(content))
}

/// The contents of a predicate as a map of Boogie.
fn content_map(
    alloc: Global,
    contents: &Sparse<Key, Content>,
) -> Result<Sparse<Key, BScalar>, Memory>
    requires { IsTidy (content_image (contents_of contents.now)) }
    ensures { IfOk result (λ map. map_of map ≡ content_image (contents_of contents.now)) }
{
    let zero = BScalar::Snap(contents.default().clone()?);
    let mut map = Sparse::make(alloc, zero)?;
    for i in 0..contents.len() {
        put_instance(contents, i, &mut map)?;
    }
    Ok(map)
}
