// Reading a place, taking from an instance, and filling both from a content.
ghost use Rattle.std.specs.Prelude.{◌≡◌, [], ◌∷◌};
ghost use Rattle.vb_value.specs.Bound.{Bounded};
ghost use Rattle.vb_value.specs.Content as tree;
ghost use Rattle.vb_value.specs.Value.{type_of, value_eq, same_type};
ghost use Rattle.vb_value.specs.View.{content_of};
ghost use Rattle.viper_state.specs.Event as event;
ghost use Rattle.viper_state.specs.View.{state_of, feed_of, event_of};
ghost use Rattle.viper_meaning.specs.Ends.{found};
ghost use Rattle.viper_meaning.specs.Places as p;
ghost use Rattle.viper_eval.specs.Answers.{ended, Answers};
ghost use Rattle.viper_eval.specs.View.{lent};

use crate::answers::{EvalHalt, EvalStop};
use crate::operators::{assumed, failure, fitted, found};
use crate::scenes::SceneRef;
use std::alloc::Global;
use vb_base::{Kind, Pos};
use vb_value::{Content, Frac, Key, KeyPart, Value};
use viper_state::{Event, Feed, State};

/// The value of a field.
pub(crate) fn read_field(
    scene: SceneRef,
    now: &State,
    field: u32,
    at: Pos,
    reference: u64,
) -> Result<Value, EvalStop>
    ensures { ended result ≡ p.read_field (lent scene.entry) (state_of now.now) field at reference }
{
    if reference == 0 {
        return Err(failure(scene, at, Kind::Null));
    }
    let held = found(now.mask_at(field, reference))?;
    if Frac::is_none(held) {
        return Err(failure(scene, at, Kind::Perm));
    }
    found(now.value_at(field, reference))
}

fn key_part(value: Value) -> Result<KeyPart, EvalStop>
    ensures { ended result ≡ found (p.key_part value) }
{
    match value {
        Value::Int(number) => Ok(KeyPart::Int(number)),
        Value::Bool(truth) => Ok(KeyPart::Bool(truth)),
        Value::Ref(reference) => Ok(KeyPart::Ref(reference)),
        Value::Perm(_) => Err(EvalStop::Blocked),
    }
}

/// What is held after so much was added.
pub fn added(held: Frac, scale: Frac, amount: Frac, at: Pos) -> Result<Frac, EvalStop>
    ensures { ended result ≡ p.added Bounded held scale amount at }
{
    let more = fitted(Frac::mul(scale, amount), at)?;
    fitted(Frac::add(held, more), at)
}

fn leaf(content: &Content) -> Result<Value, EvalStop>
    ensures { ended result ≡ p.leaf_of (content_of content.now) }
{
    match content {
        Content::Leaf(value) => Ok(*value),
        _ => Err(EvalStop::Blocked),
    }
}

/// Nothing is filled from the content of nothing.
pub(crate) fn unit(content: &Content) -> Result<(), EvalStop>
    ensures { ended result ≡ p.unit_of (content_of content.now) }
{
    match content {
        Content::Unit => Ok(()),
        _ => Err(EvalStop::Blocked),
    }
}

/// A field of a reference.
#[derive(Clone, Copy)]
pub(crate) struct HeapPlace {
    pub(crate) field: u32,
    pub(crate) reference: u64,
}

impl HeapPlace {
    pub(crate) fn of(field: u32, reference: u64) -> HeapPlace
        ensures { result ≡ record { field = field; reference = reference } }
    {
        HeapPlace { field, reference }
    }
}

/// A predicate with its arguments.
#[derive(Drop)]
pub struct InstanceKey {
    pub predicate: u32,
    pub key: Key,
}

impl InstanceKey {
    /// The instance of these two.
    pub fn of(predicate: u32, key: Key) -> InstanceKey
        ensures { result ≡ record { predicate = predicate; key = key } }
    {
        InstanceKey { predicate, key }
    }
}

/// An amount of an assertion, the scale that multiplies it, and the place of what it is an amount of.
#[derive(Clone, Copy)]
pub struct ScaledAmount {
    pub amount: Frac,
    pub scale: Frac,
    pub at: Pos,
}

impl ScaledAmount {
    /// The share of these three.
    pub fn of(amount: Frac, scale: Frac, at: Pos) -> ScaledAmount
        ensures { result ≡ record { amount = amount; scale = scale; at = at } }
    {
        ScaledAmount { amount, scale, at }
    }
}

/// The argument of an instance that has one.
fn key_of_one(value: Value) -> Result<Key, EvalStop>
    ensures { ended result ≡ found (p.key_of (value ∷ [])) }
{
    Ok(Key::of_one(key_part(value)?))
}

/// The arguments of an instance.
pub fn key_of(alloc: Global, values: &[Value]) -> Result<Key, EvalHalt>
    ensures { Answers (λ key. key) [] (found (p.key_of values.now)) [] result }
{
    if let [argument] = values {
        return Ok(key_of_one(*argument)?);
    }
    let mut parts = Vec::with_capacity(alloc, values.len())?;
    for value in values {
        parts.push(key_part(*value)?)?;
    }
    Ok(Key::new(parts))
}

/// Takes so much of an instance.
pub fn take(
    scene: SceneRef,
    state: &mut State,
    instance: InstanceKey,
    amount: Frac,
    at: Pos,
) -> Result<(), EvalHalt>
    ensures { Answers (λ _. state_of state.new) []
        (p.taken Bounded (lent scene.entry) (state_of state.old) instance.predicate instance.key amount at) [] result }
{
    if !Frac::is_positive(amount) {
        return Err(EvalHalt::Stops(failure(scene, at, Kind::Amount)));
    }
    let held = found(state.amount_at(instance.predicate, &instance.key))?;
    if fitted(Frac::cmp(held, amount), at)?.is_lt() {
        return Err(EvalHalt::Stops(failure(scene, at, Kind::Perm)));
    }
    let left = fitted(Frac::sub(held, amount), at)?;
    state.set_amount(instance.predicate, instance.key, left)?;
    Ok(())
}

fn is_same(value: &Value, other: &Value) -> bool
    ensures { result ≡ value_eq value.now other.now }
{
    *value == *other
}

/// A place takes the value where there was no permission. Else it must have it.
fn write(state: &mut State, place: HeapPlace, value: Value, held: Frac) -> Result<(), EvalHalt>
    ensures { Answers (λ _. state_of state.new) []
        (p.written (state_of state.old) place.field place.reference value held) [] result }
{
    if Frac::is_none(held) {
        state.set_value(place.field, place.reference, value)?;
        return Ok(());
    }
    let old = found(state.value_at(place.field, place.reference))?;
    Ok(assumed(is_same(&value, &old))?)
}

/// A place takes the value, and so much more of it is held.
fn fill_leaf(
    state: &mut State,
    place: HeapPlace,
    share: ScaledAmount,
    value: Value,
) -> Result<(), EvalHalt>
    ensures { Answers (λ _. state_of state.new) []
        (p.fill_leaf Bounded share.scale place.field place.reference share.amount value share.at (state_of state.old)) [] result }
{
    let held = found(state.mask_at(place.field, place.reference))?;
    write(state, place, value, held)?;
    let all = added(held, share.scale, share.amount, share.at)?;
    if Frac::is_above_one(all) {
        return Err(EvalHalt::Stops(EvalStop::Blocked));
    }
    state.set_mask(place.field, place.reference, all)?;
    Ok(())
}

fn has_type_of(value: &Value, other: &Value) -> bool
    ensures { result ≡ same_type (type_of value.now) (type_of other.now) }
{
    value.ty() == other.ty()
}

/// The value that a place takes from a content, which is recorded.
fn leaf_for(
    state: &State,
    place: HeapPlace,
    content: &Content,
    feed: &mut Feed,
) -> Result<Value, EvalHalt>
    ensures answers { Answers (λ v. v) (feed_of feed.old).events
        (p.leaf_for (state_of state.now) place.field place.reference (content_of content.now)) (feed_of feed.new).events result }
    ensures left { (feed_of feed.new).left ≡ (feed_of feed.old).left }
{
    if place.reference == 0 {
        return Err(EvalHalt::Stops(EvalStop::Blocked));
    }
    let value = leaf(content)?;
    let old = found(state.value_at(place.field, place.reference))?;
    if !has_type_of(&value, &old) {
        return Err(EvalHalt::Stops(EvalStop::Blocked));
    }
    feed.record(leaf_event(&value))?;
    Ok(value)
}

fn leaf_event(value: &Value) -> Event
    ensures { event_of result ≡ event.Leaf value.now }
{
    Event::Leaf(*value)
}

/// Fills a place from a content.
pub(crate) fn fill_place(
    scene: SceneRef,
    state: &mut State,
    place: HeapPlace,
    share: ScaledAmount,
    content: &Content,
    feed: &mut Feed,
) -> Result<(), EvalHalt>
    ensures answers { Answers (λ _. state_of state.new) (feed_of feed.old).events
        (p.fill_place Bounded (lent scene.entry) share.scale place.field place.reference share.amount (content_of content.now) share.at (state_of state.old))
        (feed_of feed.new).events result }
    ensures left { (feed_of feed.new).left ≡ (feed_of feed.old).left }
{
    if Frac::is_negative(share.amount) {
        return Err(EvalHalt::Stops(failure(scene, share.at, Kind::Negative)));
    }
    if Frac::is_none(share.amount) {
        return Ok(unit(content)?);
    }
    let value = leaf_for(state, place, content, feed)?;
    fill_leaf(state, place, share, value)
}

/// An instance takes the content where none was held. Else it must have it.
fn contain(
    alloc: Global,
    state: &mut State,
    instance: &InstanceKey,
    content: &Content,
    held: Frac,
) -> Result<(), EvalHalt>
    ensures { Answers (λ _. state_of state.new) []
        (p.contained (state_of state.old) instance.now.predicate instance.now.key (content_of content.now) held) [] result }
{
    if Frac::is_none(held) {
        let key = instance.key.clone()?;
        state.set_content(instance.predicate, key, content.copy(alloc)?)?;
        return Ok(());
    }
    let old = found(state.content_at(instance.predicate, &instance.key))?;
    Ok(assumed(content.same(old))?)
}

/// Fills an instance by an amount that is positive.
pub fn fill_held(
    alloc: Global,
    state: &mut State,
    instance: InstanceKey,
    share: ScaledAmount,
    content: &Content,
) -> Result<(), EvalHalt>
    ensures { Answers (λ _. state_of state.new) []
        (p.fill_held Bounded share.scale instance.predicate instance.key share.amount (content_of content.now) share.at (state_of state.old)) [] result }
{
    let held = found(state.amount_at(instance.predicate, &instance.key))?;
    contain(alloc, state, &instance, content, held)?;
    let all = added(held, share.scale, share.amount, share.at)?;
    state.set_amount(instance.predicate, instance.key, all)?;
    Ok(())
}

/// Fills an instance from a content.
pub(crate) fn fill_instance(
    alloc: Global,
    scene: SceneRef,
    state: &mut State,
    instance: InstanceKey,
    share: ScaledAmount,
    content: &Content,
) -> Result<(), EvalHalt>
    ensures { Answers (λ _. state_of state.new) []
        (p.fill_instance Bounded (lent scene.entry) share.scale instance.predicate instance.key share.amount (content_of content.now) share.at (state_of state.old)) [] result }
{
    if Frac::is_negative(share.amount) {
        return Err(EvalHalt::Stops(failure(scene, share.at, Kind::Negative)));
    }
    if Frac::is_none(share.amount) {
        return Ok(unit(content)?);
    }
    fill_held(alloc, state, instance, share, content)
}

/// The parts of a content that is a pair, which are recorded.
pub(crate) fn split<'a>(
    alloc: Global,
    content: &'a Content,
    feed: &mut Feed,
) -> Result<(&'a Content, &'a Content), EvalHalt>
    ensures answers { Answers {Y = tree.Content × tree.Content} (λ parts. (content_of parts.0.now, content_of parts.1.now))
        (feed_of feed.old).events (p.pair_of (content_of content.now)) (feed_of feed.new).events result }
    ensures left { (feed_of feed.new).left ≡ (feed_of feed.old).left }
{
    match content {
        Content::Pair(left, right) => {
            feed.record(Event::Split(left.copy(alloc)?, right.copy(alloc)?))?;
            Ok((left, right))
        }
        Content::Unit | Content::Leaf(_) => Err(EvalHalt::Stops(EvalStop::Blocked)),
    }
}
