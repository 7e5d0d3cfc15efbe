// The maps that a body under a `forall` indexes by the bound names, and their keys.
ghost use Rattle.std.specs.Prelude.{◌≡◌, ◌<◌, ◌≤◌, ℕ, ◌++◌, ◌||◌, IfOk, IsTrue, OnOk, Some, drop, length, slice_get};
ghost use Rattle.std.specs.Map.{keys_of};
ghost use Rattle.sparse.specs.Map.{borrowed, get, keys};
ghost use Rattle.vb_value.specs.Key.{key_cmp};
ghost use Rattle.boogie_tree.specs.Value as v;
ghost use Rattle.boogie_tree.specs.Whole.{scalar_of};
ghost use Rattle.boogie_tree.specs.declared.values.BScalar.{BScalar};
ghost use Rattle.boogie_meaning.specs.Decided as d;
ghost use Rattle.boogie_meaning.specs.Marked.{keys_in};
ghost use Rattle.boogie_meaning.specs.Value as m;
ghost use Rattle.boogie_eval.specs.Columns.{AreColumns, HasColumn, entries_in, keys_of_columns, keys_of_maps};
ghost use Rattle.boogie_eval.specs.View.{map_of, values_of};

use crate::eval_ends::Miss;
use crate::eval_values::the_map;
use boogie_tree::{BScalar, BValue};
use sparse::Sparse;
use std::alloc::Global;
use std::cmp::Ordering;
use vb_base::Memory;
use vb_value::{Key, KeyPart};

/// A map of an environment, by its number, and its entries in ascending order of the keys.
#[derive(Drop)]
pub(crate) struct Column<'a> {
    pub(crate) number: usize,
    pub(crate) entries: Vec<&'a (Key, BScalar)>,
}

/// Whether the last column is the one of this number.
fn is_last(columns: &[Column], number: usize) -> bool
    ensures { IsTrue result → HasColumn columns.now number }
{
    match columns.last() {
        Some(column) => column.number == number,
        None => false,
    }
}

/// The column of a map.
fn column_of<'a>(number: usize, map: &'a Sparse<Key, BScalar>) -> Result<Column<'a>, Memory>
    ensures number { IfOk result (λ c. c.number ≡ number) }
    ensures keys { IfOk result (λ c. keys_of (entries_in c) ≡ keys (map_of map.now)) }
    ensures values { IfOk result (λ c. (i : ℕ) (e : v.Key × BScalar) → slice_get (entries_in c) i ≡ Some e → get key_cmp (map_of map.now) e.0 ≡ scalar_of e.1) }
{
    Ok(Column {
        number,
        entries: map.entries()?,
    })
}

/// Adds the column of the map of a number, if there is one and it is not the last column's.
fn add_column<'a>(
    columns: &mut Vec<Column<'a>>,
    number: usize,
    env: &'a [BValue],
) -> Result<(), Memory>
    requires { AreColumns (values_of env.now) columns.old.items }
    ensures stays { OnOk result (AreColumns (values_of env.now) columns.new.items) }
    ensures added { OnOk result ((k : v.Key) → d.is_listed (keys_of_columns columns.new.items) k
        ≡ (d.is_listed (keys_in (m.the_map (values_of env.now) number)) k || d.is_listed (keys_of_columns columns.old.items) k)) }
{
    if is_last(columns, number) {
        return Ok(());
    }
    match the_map(env, number) {
        Ok(map) => Ok(columns.push(column_of(number, map)?)?),
        Err(Miss::Memory) => Err(Memory),
        Err(_) => Ok(()),
    }
}

/// The columns of the maps of these numbers. Where the numbers ascend so do the columns', and each map has one.
pub(crate) fn columns_of<'a>(
    alloc: Global,
    numbers: &[usize],
    env: &'a [BValue],
) -> Result<Vec<Column<'a>>, Memory>
    ensures columns { IfOk result (λ cs. AreColumns (values_of env.now) cs.items) }
    ensures keys { IfOk result (λ cs. (k : v.Key) → d.is_listed (keys_of_columns cs.items) k ≡ d.is_listed (keys_of_maps (values_of env.now) numbers.now) k) }
{
    let mut columns = Vec::new(alloc);
    for number in numbers {
        add_column(&mut columns, *number, env)?;
    }
    Ok(columns)
}

/// The order of two keys. Nearly all are one reference or one number, which are told at once.
fn order(left: &Key, right: &Key) -> Ordering
    ensures { result ≡ key_cmp left.now right.now }
{
    match (left.parts(), right.parts()) {
        ([KeyPart::Ref(first)], [KeyPart::Ref(second)]) => first.cmp(second),
        ([KeyPart::Int(first)], [KeyPart::Int(second)]) => first.cmp(second),
        _ => left.cmp(right),
    }
}

/// Adds the keys from an index on that are below a bound. The index after them.
fn copy_below<'a>(
    keys: &[&'a Key],
    start: usize,
    bound: &Key,
    list: &mut Vec<&'a Key>,
) -> Result<usize, Memory>
    requires { start ≤ length keys.now }
    ensures inside { IfOk result (λ end. end ≤ length keys.now) }
    ensures copied { IfOk result (λ end. borrowed list.new.items ++ drop end (borrowed keys.now) ≡ borrowed list.old.items ++ drop start (borrowed keys.now)) }
{
    for i in start..keys.len() {
        if order(keys[i], bound) != Ordering::Less {
            return Ok(i);
        }
        list.push(keys[i])?;
    }
    Ok(keys.len())
}

/// The index after the key at an index, if it is this key, and else the index.
fn beyond(keys: &[&Key], at: usize, key: &Key) -> usize
    requires { at ≤ length keys.now }
    ensures inside { result ≤ length keys.now }
    ensures same { (k : v.Key) → (d.same_key k key.now || d.is_listed (drop result (borrowed keys.now)) k) ≡ (d.same_key k key.now || d.is_listed (drop at (borrowed keys.now)) k) }
{
    if at >= keys.len() {
        return at;
    }
    match order(keys[at], key) {
        Ordering::Equal => at + 1,
        _ => at,
    }
}

/// The keys of two lists. Where both are in ascending order so is theirs, with each key once.
fn merged<'a>(alloc: Global, left: &[&'a Key], right: &[&'a Key]) -> Result<Vec<&'a Key>, Memory>
    ensures { IfOk result (λ list. (k : v.Key) → d.is_listed (borrowed list.items) k ≡ (d.is_listed (borrowed left.now) k || d.is_listed (borrowed right.now) k)) }
{
    let mut list = Vec::with_capacity(alloc, left.len().max(right.len()))?;
    let mut next = 0;
    for key in right {
        let end = copy_below(left, next, key, &mut list)?;
        next = beyond(left, end, key);
        list.push(*key)?;
    }
    list.extend_from_slice(&left[next..])?;
    Ok(list)
}

/// The keys of a column, in ascending order.
fn keys_of_column<'a>(alloc: Global, column: &Column<'a>) -> Result<Vec<&'a Key>, Memory>
    ensures { IfOk result (λ list. borrowed list.items ≡ keys_of (entries_in column.now)) }
{
    let mut list = Vec::with_capacity(alloc, column.entries.len())?;
    for entry in &column.entries {
        list.push(&entry.0)?;
    }
    Ok(list)
}

/// The keys of all columns, in ascending order. The calls are no deeper than a logarithm of the number of columns.
pub(crate) fn keys_of_all<'a>(alloc: Global, columns: &[Column<'a>]) -> Result<Vec<&'a Key>, Memory>
    ensures { IfOk result (λ list. (k : v.Key) → d.is_listed (borrowed list.items) k ≡ d.is_listed (keys_of_columns columns.now) k) }
{
    match columns {
        [] => Ok(Vec::new(alloc)),
        [column] => keys_of_column(alloc, column),
        _ => {
            let (left, right) = columns.split_at(columns.len() / 2);
            let front = keys_of_all(alloc, left)?;
            let back = keys_of_all(alloc, right)?;
            merged(alloc, &front, &back)
        }
    }
}

/// Moves the index of each column behind its entry at this key, if it stands there.
pub(crate) fn pass(columns: &[Column], nexts: &mut [usize], key: &Key) {
    for i in 0..columns.len().min(nexts.len()) {
        if is_at(&columns[i].entries, nexts[i], key) {
            nexts[i] += 1;
        }
    }
}

/// Whether an entry at an index has this key.
fn is_at(entries: &[&(Key, BScalar)], at: usize, key: &Key) -> bool
    ensures { IsTrue result → at < length entries.now }
{
    match entries.get(at) {
        Some(entry) => order(&entry.0, key) == Ordering::Equal,
        None => false,
    }
}
