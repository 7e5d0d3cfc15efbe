//! States and scenes, as the rows of the tables write them.
ghost use Rattle.std.specs.Prelude.{◌≡◌, ◌∷◌, [], pos, length, map, IfOk, OnOk};
ghost use Rattle.sparse.specs.Map.{empty};
ghost use Rattle.vb_value.specs.Content as tree;
ghost use Rattle.viper_state.specs.View.{contents_of, scene_of, state_of};
ghost use Rattle.viper_state.specs.Within.{IsWithinState, IsWithinScene};

use crate::words::{content, fraction, key, reference, value, values};
use row_columns::parts;
use sparse::Sparse;
use std::alloc::Global;
use std::test::Fail;
use vb_base::Pos;
use vb_value::{Content, Key, Layout, Ty, Value};
use viper_state::{Memo, Scene, State, empty_state};

/// The place of the step that is running.
const STEP: Pos = Pos { line: 9, col: 1 };

/// Each place of the fields, an Int `f` and a Ref `g`, has its default.
fn heap(alloc: Global) -> Result<Vec<Sparse<u64, Value>>, Fail>
    ensures { IfOk result (λ heap. heap.items ≡ empty (Value.Int (pos 0)) ∷ empty (Value.Ref 0) ∷ []) }
{
    let mut heap = Vec::new(alloc);
    heap.push(Sparse::make(alloc, Value::Int(0))?)?;
    heap.push(Sparse::make(alloc, Value::Ref(0))?)?;
    Ok(heap)
}

/// Each instance of the predicates `P`, `Q` and `R` contains nothing.
fn contents(alloc: Global) -> Result<Vec<Sparse<Key, Content>>, Fail>
    ensures { IfOk result (λ contents. map contents_of contents.items ≡ empty tree.Unit ∷ empty tree.Unit ∷ empty tree.Unit ∷ []) }
{
    let mut contents = Vec::new(alloc);
    contents.push(Sparse::make(alloc, Content::Unit)?)?;
    contents.push(Sparse::make(alloc, Content::Unit)?)?;
    contents.push(Sparse::make(alloc, Content::Unit)?)?;
    Ok(contents)
}

fn layout(alloc: Global) -> Result<Layout, Fail>
    ensures fields { IfOk result (λ layout. length layout.fields ≡ 2) }
    ensures keys { IfOk result (λ layout. length layout.keys ≡ 3) }
{
    Ok(Layout {
        fields: vec![in alloc; Ty::Int, Ty::Ref]?,
        keys: vec![in alloc; Vec::new(alloc), Vec::new(alloc), Vec::new(alloc)]?,
    })
}

/// Nothing is held, each place has its default and each instance contains nothing.
fn nothing(alloc: Global) -> Result<State, Fail>
    ensures { IfOk result (λ s. IsWithinState (state_of s)) }
{
    let layout = layout(alloc)?;
    let memo = Memo {
        heap: heap(alloc)?,
        content: contents(alloc)?,
    };
    Ok(empty_state(alloc, &layout, &memo)?)
}

fn number(name: &str) -> Result<u32, Fail> {
    match name.as_bytes() {
        b"f" | b"P" => Ok(0),
        b"g" | b"Q" => Ok(1),
        b"R" => Ok(2),
        _ => Err("no name")?,
    }
}

/// The arguments of an instance, and its name, as in `P(#1,3)`.
fn instance(place: &str) -> Result<(&str, &str), Fail> {
    let (name, rest) = parts(place, "(")?;
    Ok((name, rest.strip_suffix(")").ok_or("no instance")?))
}

/// Gives a place a value, or an instance a content.
fn fill(alloc: Global, state: &mut State, place: &str, text: &str) -> Result<(), Fail>
    requires { IsWithinState (state_of state.old) }
    ensures { OnOk result (IsWithinState (state_of state.new)) }
{
    if let Some((receiver, field)) = place.split_once(".") {
        let value = value(text)?;
        state
            .set_value(number(field)?, reference(receiver)?, value)?
            .ok_or("no field")?;
        return Ok(());
    }
    let (name, args) = instance(place)?;
    let content = content(alloc, text)?;
    state
        .set_content(number(name)?, key(alloc, args)?, content)?
        .ok_or("no predicate")?;
    Ok(())
}

/// Sets how much of a place or of an instance is held.
fn hold(alloc: Global, state: &mut State, place: &str, text: &str) -> Result<(), Fail>
    requires { IsWithinState (state_of state.old) }
    ensures { OnOk result (IsWithinState (state_of state.new)) }
{
    let amount = fraction(text)?;
    if let Some((receiver, field)) = place.split_once(".") {
        state
            .set_mask(number(field)?, reference(receiver)?, amount)?
            .ok_or("no field")?;
        return Ok(());
    }
    let (name, args) = instance(place)?;
    state
        .set_amount(number(name)?, key(alloc, args)?, amount)?
        .ok_or("no predicate")?;
    Ok(())
}

/// Sets what a word says: `#1.f=5` a value, `#1.f:1/2` what is held, `P(#1)=5` and `P(#1):1/2` the same of an instance.
fn set(alloc: Global, state: &mut State, word: &str) -> Result<(), Fail>
    requires { IsWithinState (state_of state.old) }
    ensures { OnOk result (IsWithinState (state_of state.new)) }
{
    match word.split_once("=") {
        Some((place, text)) => fill(alloc, state, place, text),
        None => {
            let (place, text) = parts(word, ":")?;
            hold(alloc, state, place, text)
        }
    }
}

/// The state that a row tells.
pub fn state_of(alloc: Global, text: &str) -> Result<State, Fail>
    ensures { IfOk result (λ s. IsWithinState (state_of s)) }
{
    let mut state = nothing(alloc)?;
    for word in text.split_whitespace() {
        set(alloc, &mut state, word)?;
    }
    Ok(state)
}

/// The scene in which the variables have these values, with this old state.
pub fn scene(alloc: Global, variables: &str, old: &str) -> Result<Scene, Fail>
    ensures { IfOk result (λ s. IsWithinScene (scene_of s)) }
{
    let store = values(alloc, variables)?;
    let old = state_of(alloc, old)?;
    let at = STEP;
    Ok(Scene { store, old, at })
}

fn same_map<K: Ord + Clone, V: Eq + Clone>(map: &Sparse<K, V>, other: &Sparse<K, V>) -> bool {
    if map.len() != other.len() {
        return false;
    }
    for i in 0..map.len() {
        let (key, other_key) = (map.key_at(i), other.key_at(i));
        if *key != *other_key || *map.get(key) != *other.get(other_key) {
            return false;
        }
    }
    true
}

fn same_maps<K: Ord + Clone, V: Eq + Clone>(
    maps: &[Sparse<K, V>],
    others: &[Sparse<K, V>],
) -> bool {
    if maps.len() != others.len() {
        return false;
    }
    for i in 0..maps.len() {
        if !same_map(&maps[i], &others[i]) {
            return false;
        }
    }
    true
}

/// Whether two states are equal, place by place.
fn same_state(state: &State, other: &State) -> bool {
    same_maps(&state.heap, &other.heap)
        && same_maps(&state.content, &other.content)
        && same_maps(&state.mask, &other.mask)
        && same_maps(&state.amount, &other.amount)
}

/// Whether a state is what it was before but for what is other.
pub fn is_changed(alloc: Global, state: &State, before: &str, other: &str) -> Result<bool, Fail> {
    let words = format!(in alloc; "{before} {other}")?;
    Ok(same_state(state, &state_of(alloc, words.as_str())?))
}
