// Writing a field, and new objects.
ghost use Rattle.std.specs.Prelude.{◌≡◌, [], ◌∷◌};
ghost use Rattle.viper_state.specs.Greatest.{AreWithin};
ghost use Rattle.viper_state.specs.View.{feed_of, state_of};
ghost use Rattle.viper_meaning.specs.Statements as m;
ghost use Rattle.viper_eval.specs.Answers.{Answers, ended};
ghost use Rattle.viper_eval.specs.View.{lent};
ghost use Rattle.viper_inhale.specs.Answers.{Does};
ghost use Rattle.viper_run.specs.Steps.{held_whole};
ghost use Rattle.viper_run.specs.View.{configuration_of};

use crate::activations::{Configuration, Store};
use crate::choices::take_value_of;
use sparse::Sparse;
use vb_base::{Kind, Pos};
use vb_value::{Frac, Ty, Value};
use viper_core::Expr;
use viper_eval::{EvalHalt, EvalStop, SceneRef, failure, found};
use viper_state::{Feed, State};

/// A field of what an expression is, `e.f`, and where its name stands.
#[derive(Clone, Copy)]
pub(crate) struct AssignedField<'a> {
    pub receiver: &'a Expr,
    pub field: u32,
    pub at: Pos,
}

/// The whole permission to a field is held, whose name is at this place.
fn hold_whole(
    scene: SceneRef,
    state: &State,
    field: u32,
    at: Pos,
    reference: u64,
) -> Result<(), EvalStop>
    ensures { ended result ≡ held_whole (lent scene.entry) (state_of state.now) field at reference }
{
    if reference == 0 {
        return Err(failure(scene, at, Kind::Null));
    }
    if found(state.mask_at(field, reference))? != Frac::write() {
        return Err(failure(scene, at, Kind::Perm));
    }
    Ok(())
}

/// Writes a field, whose name is at this place.
pub(crate) fn write_field(
    scene: SceneRef,
    state: &mut State,
    field: u32,
    at: Pos,
    reference: u64,
    value: Value,
) -> Result<(), EvalHalt>
    ensures { Answers (λ _. state_of state.new) []
        (m.field_written (lent scene.entry) (state_of state.old) field at reference value) [] result }
{
    hold_whole(scene, state, field, at, reference)?;
    state.set_value(field, reference, value)?;
    Ok(())
}

/// Whether a variable is this reference.
fn is_at(reference: u64, store: &Store, variable: u32) -> bool
    ensures { result ≡ m.is_named reference store.now.values.items (variable ∷ []) }
{
    match store.values.get(variable as usize) {
        Some(value) => *value == Value::Ref(reference),
        None => false,
    }
}

/// Whether one of these variables is this reference.
fn is_named(reference: u64, store: &Store, variables: &[u32]) -> bool
    ensures { result ≡ m.is_named reference store.now.values.items variables.now }
{
    for variable in variables {
        if is_at(reference, store, *variable) {
            return true;
        }
    }
    false
}

/// Whether something is held of a field of this reference.
fn is_held(reference: u64, masks: &[Sparse<u64, Frac>]) -> bool
    ensures { result ≡ m.is_held reference masks.now }
{
    for mask in masks {
        if !Frac::is_none(*mask.get(&reference)) {
            return true;
        }
    }
    false
}

/// Whether this reference stands at a place of one field to which something is held.
fn is_in(reference: u64, heap: &Sparse<u64, Value>, mask: &Sparse<u64, Frac>) -> bool
    ensures { result ≡ m.is_stored reference (heap.now ∷ []) (mask.now ∷ []) }
{
    let wanted = Value::Ref(reference);
    if *heap.default() != wanted && !heap.has(&wanted) {
        return false;
    }
    for i in 0..mask.len() {
        if *heap.get(mask.key_at(i)) == wanted {
            return true;
        }
    }
    false
}

/// The same of all fields. A reference that is greater than all that stand in the heaps is not looked for.
fn is_stored(
    reference: u64,
    greatest: u64,
    heaps: &[Sparse<u64, Value>],
    masks: &[Sparse<u64, Frac>],
) -> bool
    requires { AreWithin greatest heaps.now }
    ensures { result ≡ m.is_stored reference heaps.now masks.now }
{
    if reference > greatest {
        return false;
    }
    for field in 0..heaps.len().min(masks.len()) {
        if is_in(reference, &heaps[field], &masks[field]) {
            return true;
        }
    }
    false
}

/// Whether the method knows nothing of a reference.
pub(crate) fn is_fresh(reference: u64, variables: &[u32], configuration: &Configuration) -> bool
    ensures { result ≡ m.is_fresh reference variables.now (configuration_of configuration.now) }
{
    let Configuration { store, state } = configuration;
    reference != 0
        && !is_named(reference, store, variables)
        && !is_held(reference, &state.mask)
        && !is_stored(reference, state.greatest(), &state.heap, &state.mask)
}

/// A field of a new object takes a value, and is held whole.
fn create_field(
    types: &[Ty],
    reference: u64,
    field: u32,
    state: &mut State,
    feed: &mut Feed,
) -> Result<(), viper_inhale::StepHalt>
    ensures { Does (λ _. state_of state.new) (feed_of feed.old)
        (m.created types.now reference (field ∷ []) (state_of state.old)) (feed_of feed.new) result }
{
    let value = take_value_of(types, field, feed)?;
    state.set_value(field, reference, value)?;
    state.set_mask(field, reference, Frac::write())?;
    Ok(())
}

/// The fields of a new object take values, and are held whole.
pub(crate) fn create(
    types: &[Ty],
    reference: u64,
    fields: &[u32],
    state: &mut State,
    feed: &mut Feed,
) -> Result<(), viper_inhale::StepHalt>
    ensures { Does (λ _. state_of state.new) (feed_of feed.old)
        (m.created types.now reference fields.now (state_of state.old)) (feed_of feed.new) result }
{
    for field in fields {
        create_field(types, reference, *field, state, feed)?;
    }
    Ok(())
}
