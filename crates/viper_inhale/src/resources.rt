// Places and instances, and what is held of them.
ghost use Rattle.std.specs.Prelude.{◌≡◌, []};
ghost use Rattle.vb_value.specs.Bound.{Bounded};
ghost use Rattle.viper_core.specs.Literals.{IsWithinExpr, AreWithinExprs};
ghost use Rattle.viper_core.specs.View.{expr_of, exprs_of};
ghost use Rattle.viper_state.specs.View.{state_of, feed_of};
ghost use Rattle.viper_state.specs.Within.{IsWithinState, IsWithinScene};
ghost use Rattle.viper_meaning.specs.Assertions as m;
ghost use Rattle.viper_meaning.specs.Ends.{is, found};
ghost use Rattle.viper_meaning.specs.Resource as r;
ghost use Rattle.viper_eval.specs.Answers.{Answers, ended};
ghost use Rattle.viper_eval.specs.View.{lent};
ghost use Rattle.viper_inhale.specs.View.{resource_of};

use std::alloc::Global;
use vb_base::{Kind, Pos};
use vb_value::{Frac, Key};
use viper_core::Expr;
use viper_eval::{
    EvalHalt, EvalStop, SceneRef, added, assumed, failure, fitted, found, key_in, reference_of,
};
use viper_state::{Feed, State};

/// What permission is held to.
#[derive(Drop)]
pub(crate) enum Resource {
    /// A field of a reference.
    Place(u32, u64),
    /// A predicate with its arguments.
    Instance(u32, Key),
}

impl Resource {
    /// How much of it is held. None where the state has no such field or predicate.
    pub(crate) fn held(&self, state: &State) -> Option<Frac>
        ensures { result ≡ r.held_at (state_of state.now) (resource_of self.now) }
    {
        match self {
            Resource::Place(field, reference) => state.mask_at(*field, *reference),
            Resource::Instance(predicate, key) => state.amount_at(*predicate, key),
        }
    }

    /// Whether it is a field of null.
    fn is_null(&self) -> bool
        ensures { result ≡ r.is_null (resource_of self.now) }
    {
        matches!(self, Resource::Place(_, 0))
    }

    /// Whether an amount of it is too much.
    fn is_too_much(&self, amount: Frac) -> bool
        ensures { result ≡ r.is_too_much (resource_of self.now) amount }
    {
        match self {
            Resource::Place(_, _) => Frac::is_above_one(amount),
            Resource::Instance(_, _) => false,
        }
    }
}

/// Sets how much of a resource is held.
pub(crate) fn hold(state: &mut State, resource: Resource, amount: Frac) -> Result<(), EvalHalt>
    ensures { Answers (λ _. state_of state.new) [] (is (r.with_held (state_of state.old) (resource_of resource) amount)) [] result }
{
    match resource {
        Resource::Place(field, reference) => state.set_mask(field, reference, amount)?,
        Resource::Instance(predicate, key) => state.set_amount(predicate, key, amount)?,
    };
    Ok(())
}

/// The place of a field, whose receiver is read in a state.
pub(crate) fn place(
    alloc: Global,
    receiver: &Expr,
    field: u32,
    now: &State,
    scene: SceneRef,
    feed: &mut Feed,
) -> Result<Resource, EvalHalt>
    requires receiver_within { IsWithinExpr (expr_of receiver.now) }
    requires now_within { IsWithinState (state_of now.now) }
    requires scene_within { IsWithinScene (lent scene) }
    ensures answers { Answers resource_of (feed_of feed.old).events
        (m.place_in Bounded (expr_of receiver.now) field (state_of now.now) (lent scene.entry)) (feed_of feed.new).events result }
    ensures left { (feed_of feed.new).left ≡ (feed_of feed.old).left }
{
    let reference = reference_of(alloc, receiver, now, scene, feed)?;
    Ok(Resource::Place(field, reference))
}

/// The instance of a predicate, whose arguments are read in a state.
pub(crate) fn instance(
    alloc: Global,
    predicate: u32,
    args: &[Expr],
    now: &State,
    scene: SceneRef,
    feed: &mut Feed,
) -> Result<Resource, EvalHalt>
    requires args_within { AreWithinExprs (exprs_of args.now) }
    requires now_within { IsWithinState (state_of now.now) }
    requires scene_within { IsWithinScene (lent scene) }
    ensures answers { Answers resource_of (feed_of feed.old).events
        (m.instance_in Bounded predicate (exprs_of args.now) (state_of now.now) (lent scene.entry)) (feed_of feed.new).events result }
    ensures left { (feed_of feed.new).left ≡ (feed_of feed.old).left }
{
    let key = key_in(alloc, args, now, scene, feed)?;
    Ok(Resource::Instance(predicate, key))
}

/// What an amount is of: its scale, and the place of the name of the field or predicate.
#[derive(Clone, Copy)]
pub(crate) struct PlacedScale {
    pub(crate) scale: Frac,
    pub(crate) at: Pos,
}

impl PlacedScale {
    pub(crate) fn of(scale: Frac, at: Pos) -> PlacedScale
        ensures { result ≡ record { scale = scale; at = at } }
    {
        PlacedScale { scale, at }
    }
}

/// Holds so much more of a resource, times the scale.
fn hold_more(
    state: &mut State,
    resource: Resource,
    share: PlacedScale,
    amount: Frac,
) -> Result<(), EvalHalt>
    ensures { Answers (λ _. state_of state.new) []
        (m.more_held Bounded share.scale (resource_of resource) share.at (state_of state.old) amount) [] result }
{
    if resource.is_null() {
        return Err(EvalHalt::Stops(EvalStop::Blocked));
    }
    let held = found(resource.held(state))?;
    let all = added(held, share.scale, amount, share.at)?;
    if resource.is_too_much(all) {
        return Err(EvalHalt::Stops(EvalStop::Blocked));
    }
    hold(state, resource, all)
}

/// Gives an amount that is written. A negative one fails, and none changes nothing.
pub(crate) fn give(
    scene: SceneRef,
    state: &mut State,
    resource: Resource,
    share: PlacedScale,
    amount: Frac,
) -> Result<(), EvalHalt>
    ensures { Answers (λ _. state_of state.new) []
        (m.given_to Bounded (lent scene.entry) share.scale (resource_of resource) share.at (state_of state.old) amount) [] result }
{
    if Frac::is_negative(amount) {
        return Err(EvalHalt::Stops(failure(scene, share.at, Kind::Negative)));
    }
    if Frac::is_none(amount) {
        return Ok(());
    }
    hold_more(state, resource, share, amount)
}

/// Gives an amount that was chosen, which has to be positive.
pub(crate) fn give_some(
    state: &mut State,
    resource: Resource,
    share: PlacedScale,
    amount: Frac,
) -> Result<(), EvalHalt>
    ensures { Answers (λ _. state_of state.new) []
        (m.some_given_to Bounded share.scale (resource_of resource) share.at (state_of state.old) amount) [] result }
{
    assumed(Frac::is_positive(amount))?;
    hold_more(state, resource, share, amount)
}

/// What is left when so much is taken of what is held. More than that fails.
fn rest_of(scene: SceneRef, at: Pos, held: Frac, amount: Frac) -> Result<Frac, EvalStop>
    ensures { ended result ≡ m.rest_of Bounded (lent scene.entry) at held amount }
{
    if fitted(Frac::cmp(held, amount), at)?.is_lt() {
        return Err(failure(scene, at, Kind::Perm));
    }
    fitted(Frac::sub(held, amount), at)
}

/// Takes an amount that is written, times the scale. A negative one fails.
pub(crate) fn take(
    scene: SceneRef,
    left: &mut State,
    resource: Resource,
    share: PlacedScale,
    amount: Frac,
) -> Result<(), EvalHalt>
    ensures { Answers (λ _. state_of left.new) []
        (m.taken_from Bounded (lent scene.entry) share.scale (resource_of resource) share.at (state_of left.old) amount) [] result }
{
    if Frac::is_negative(amount) {
        return Err(EvalHalt::Stops(failure(scene, share.at, Kind::Negative)));
    }
    let held = found(resource.held(left))?;
    let some = fitted(Frac::mul(share.scale, amount), share.at)?;
    let rest = rest_of(scene, share.at, held, some)?;
    hold(left, resource, rest)
}

/// What is held, of which a `wildcard` takes a part. None fails.
pub(crate) fn something_held(
    scene: SceneRef,
    left: &State,
    resource: &Resource,
    at: Pos,
) -> Result<Frac, EvalStop>
    ensures { ended result ≡ m.something_held (lent scene.entry) (resource_of resource.now) at (state_of left.now) }
{
    let held = found(resource.held(left))?;
    if Frac::is_none(held) {
        return Err(failure(scene, at, Kind::Perm));
    }
    Ok(held)
}

/// Takes an amount that was chosen, which has to be positive and less than what is held.
pub(crate) fn take_some(
    left: &mut State,
    resource: Resource,
    at: Pos,
    held: Frac,
    amount: Frac,
) -> Result<(), EvalHalt>
    ensures { Answers (λ _. state_of left.new) []
        (m.some_taken_from Bounded (resource_of resource) at (state_of left.old) held amount) [] result }
{
    assumed(Frac::is_positive(amount))?;
    assumed(fitted(Frac::cmp(amount, held), at)?.is_lt())?;
    let rest = fitted(Frac::sub(held, amount), at)?;
    hold(left, resource, rest)
}
