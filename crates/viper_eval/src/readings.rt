// The value of an expression, and how the body of a predicate is opened.
ghost use Rattle.std.specs.Prelude.{◌≡◌, slice_get, All};
ghost use Rattle.vb_value.specs.Bound.{Bounded};
ghost use Rattle.vb_value.specs.Content.{IsWithinContent};
ghost use Rattle.vb_value.specs.Value.{IsWithinValue};
ghost use Rattle.vb_value.specs.View.{content_of};
ghost use Rattle.viper_core.specs.View.{expr_of, exprs_of, opened_of, amt_of, assertion_of};
ghost use Rattle.viper_state.specs.View.{state_of, feed_of};
ghost use Rattle.viper_state.specs.Within.{IsWithinState, IsWithinScene};
ghost use Rattle.viper_meaning.specs.Ends.{found};
ghost use Rattle.viper_core.specs.Literals.{IsWithinExpr, IsWithinOpened, AreWithinExprs, IsWithinAmount, IsWithinAssertion};
ghost use Rattle.viper_meaning.specs.Value as m;
ghost use Rattle.viper_eval.specs.Answers.{Answers, ended};
ghost use Rattle.viper_eval.specs.Steps.{unfolded_at};
ghost use Rattle.viper_eval.specs.View.{lent};

use crate::answers::{EvalHalt, EvalStop};
use crate::operators::{
    assumed, combined, found, negation, negative, permission, reference, settled, truth,
};
use crate::places::{
    HeapPlace, InstanceKey, ScaledAmount, fill_instance, fill_place, key_of, read_field, split,
    take, unit,
};
use crate::scenes::SceneRef;
use std::alloc::Global;
use vb_value::{Content, Frac, Key, Value};
use viper_core::{Amt, Assertion, Expr, Opened};
use viper_state::{Feed, State, copy_state};

/// The value of a variable.
fn variable(scene: SceneRef, number: u32) -> Result<Value, EvalStop>
    ensures { ended result ≡ found (slice_get (lent scene.entry).store number) }
{
    found(scene.store.get(number as usize).copied())
}

/// The value of an expression.
#[cycle(readings)]
pub fn eval_in(
    alloc: Global,
    e: &Expr,
    now: &State,
    scene: SceneRef,
    feed: &mut Feed,
) -> Result<Value, EvalHalt>
    requires e_within { IsWithinExpr (expr_of e.now) }
    requires now_within { IsWithinState (state_of now.now) }
    requires scene_within { IsWithinScene (lent scene) }
    ensures answers { Answers (λ v. v) (feed_of feed.old).events
        (m.value Bounded (expr_of e.now) (state_of now.now) (lent scene.entry)) (feed_of feed.new).events result }
    ensures left { (feed_of feed.new).left ≡ (feed_of feed.old).left }
{
    match e {
        Expr::Var(x) => Ok(variable(scene, *x)?),
        Expr::Int(number) => Ok(Value::Int(*number)),
        Expr::Bool(truth) => Ok(Value::Bool(*truth)),
        Expr::Null => Ok(Value::Ref(0)),
        Expr::Part(amount) => Ok(Value::Perm(*amount)),
        Expr::Neg(a) => Ok(negative(eval_in(alloc, a, now, scene, feed)?)?),
        Expr::Not(a) => Ok(negation(eval_in(alloc, a, now, scene, feed)?)?),
        Expr::Bin(op, a, b, at) => {
            let left = eval_in(alloc, a, now, scene, feed)?;
            if let Some(answer) = settled(*op, left)? {
                return Ok(Value::Bool(answer));
            }
            let right = eval_in(alloc, b, now, scene, feed)?;
            Ok(combined(scene, *op, left, right, *at)?)
        }
        Expr::Choose(a, b, c) => {
            if truth_of(alloc, a, now, scene, feed)? {
                eval_in(alloc, b, now, scene, feed)
            } else {
                eval_in(alloc, c, now, scene, feed)
            }
        }
        Expr::Field(a, field, at) => {
            let receiver = reference_of(alloc, a, now, scene, feed)?;
            Ok(read_field(scene, now, *field, *at, receiver)?)
        }
        Expr::Old(a) => eval_in(alloc, a, scene.old, scene, feed),
        Expr::Unfolding(opened) => unfold(alloc, opened, now, scene, feed),
    }
}

/// The value of an expression that is a Bool.
#[cycle(readings)]
pub fn truth_of(
    alloc: Global,
    e: &Expr,
    now: &State,
    scene: SceneRef,
    feed: &mut Feed,
) -> Result<bool, EvalHalt>
    requires e_within { IsWithinExpr (expr_of e.now) }
    requires now_within { IsWithinState (state_of now.now) }
    requires scene_within { IsWithinScene (lent scene) }
    ensures answers { Answers (λ b. b) (feed_of feed.old).events
        (m.truth_in Bounded (expr_of e.now) (state_of now.now) (lent scene.entry))
        (feed_of feed.new).events result }
    ensures left { (feed_of feed.new).left ≡ (feed_of feed.old).left }
{
    Ok(truth(eval_in(alloc, e, now, scene, feed)?)?)
}

/// The value of an expression that is a Ref.
#[cycle(readings)]
pub fn reference_of(
    alloc: Global,
    e: &Expr,
    now: &State,
    scene: SceneRef,
    feed: &mut Feed,
) -> Result<u64, EvalHalt>
    requires e_within { IsWithinExpr (expr_of e.now) }
    requires now_within { IsWithinState (state_of now.now) }
    requires scene_within { IsWithinScene (lent scene) }
    ensures answers { Answers (λ r. r) (feed_of feed.old).events
        (m.ref_in Bounded (expr_of e.now) (state_of now.now) (lent scene.entry))
        (feed_of feed.new).events result }
    ensures left { (feed_of feed.new).left ≡ (feed_of feed.old).left }
{
    Ok(reference(eval_in(alloc, e, now, scene, feed)?)?)
}

/// The value of an expression that is a Perm.
#[cycle(readings)]
pub fn permission_of(
    alloc: Global,
    e: &Expr,
    now: &State,
    scene: SceneRef,
    feed: &mut Feed,
) -> Result<Frac, EvalHalt>
    requires e_within { IsWithinExpr (expr_of e.now) }
    requires now_within { IsWithinState (state_of now.now) }
    requires scene_within { IsWithinScene (lent scene) }
    ensures answers { Answers (λ q. q) (feed_of feed.old).events
        (m.perm_in Bounded (expr_of e.now) (state_of now.now) (lent scene.entry))
        (feed_of feed.new).events result }
    ensures left { (feed_of feed.new).left ≡ (feed_of feed.old).left }
{
    Ok(permission(eval_in(alloc, e, now, scene, feed)?)?)
}

/// An amount, which is no `wildcard` in the body of a predicate.
#[cycle(readings)]
pub fn amount_of(
    alloc: Global,
    amount: &Amt,
    now: &State,
    scene: SceneRef,
    feed: &mut Feed,
) -> Result<Frac, EvalHalt>
    requires amount_within { IsWithinAmount (amt_of amount.now) }
    requires now_within { IsWithinState (state_of now.now) }
    requires scene_within { IsWithinScene (lent scene) }
    ensures answers { Answers (λ q. q) (feed_of feed.old).events
        (m.amount_of Bounded (amt_of amount.now) (state_of now.now) (lent scene.entry))
        (feed_of feed.new).events result }
    ensures left { (feed_of feed.new).left ≡ (feed_of feed.old).left }
{
    match amount {
        Amt::Is(e) => permission_of(alloc, e, now, scene, feed),
        Amt::Wildcard => Err(EvalHalt::Stops(EvalStop::Blocked)),
    }
}

/// The values of arguments, from left to right.
#[cycle(readings)]
pub fn eval_all(
    alloc: Global,
    es: &[Expr],
    now: &State,
    scene: SceneRef,
    feed: &mut Feed,
) -> Result<Vec<Value>, EvalHalt>
    requires es_within { AreWithinExprs (exprs_of es.now) }
    requires now_within { IsWithinState (state_of now.now) }
    requires scene_within { IsWithinScene (lent scene) }
    ensures answers { Answers (λ v. v.items) (feed_of feed.old).events
        (m.values Bounded (exprs_of es.now) (state_of now.now) (lent scene.entry)) (feed_of feed.new).events result }
    ensures left { (feed_of feed.new).left ≡ (feed_of feed.old).left }
{
    let mut values = Vec::with_capacity(alloc, es.len())?;
    for e in es {
        values.push(eval_in(alloc, e, now, scene, feed)?)?;
    }
    Ok(values)
}

/// The arguments of an instance.
#[cycle(readings)]
pub fn key_in(
    alloc: Global,
    args: &[Expr],
    now: &State,
    scene: SceneRef,
    feed: &mut Feed,
) -> Result<Key, EvalHalt>
    requires args_within { AreWithinExprs (exprs_of args.now) }
    requires now_within { IsWithinState (state_of now.now) }
    requires scene_within { IsWithinScene (lent scene) }
    ensures answers { Answers (λ key. key) (feed_of feed.old).events
        (m.key_in Bounded (exprs_of args.now) (state_of now.now) (lent scene.entry)) (feed_of feed.new).events result }
    ensures left { (feed_of feed.new).left ≡ (feed_of feed.old).left }
{
    let values = eval_all(alloc, args, now, scene, feed)?;
    key_of(alloc, &values)
}

/// The value of an expression in a copy of the state in which an instance is unfolded.
#[cycle(readings)]
fn unfold(
    alloc: Global,
    opened: &Opened,
    now: &State,
    scene: SceneRef,
    feed: &mut Feed,
) -> Result<Value, EvalHalt>
    requires opened_within { IsWithinOpened (opened_of opened.now) }
    requires now_within { IsWithinState (state_of now.now) }
    requires scene_within { IsWithinScene (lent scene) }
    ensures answers { Answers (λ v. v) (feed_of feed.old).events
        (m.unfolded Bounded (opened_of opened.now) (state_of now.now) (lent scene.entry)) (feed_of feed.new).events result }
    ensures left { (feed_of feed.new).left ≡ (feed_of feed.old).left }
{
    let args = eval_all(alloc, &opened.args, now, scene, feed)?;
    let amount = permission_of(alloc, &opened.amount, now, scene, feed)?;
    unfold_at(alloc, opened, &args, amount, now, scene, feed)
}

/// The same once the values of the arguments and the amount are known. The arguments are the variables of the body.
#[cycle(readings)]
fn unfold_at(
    alloc: Global,
    opened: &Opened,
    args: &[Value],
    amount: Frac,
    now: &State,
    scene: SceneRef,
    feed: &mut Feed,
) -> Result<Value, EvalHalt>
    requires opened_within { IsWithinOpened (opened_of opened.now) }
    requires args_within { All IsWithinValue args.now }
    requires now_within { IsWithinState (state_of now.now) }
    requires scene_within { IsWithinScene (lent scene) }
    ensures answers { Answers (λ v. v) (feed_of feed.old).events
        (unfolded_at (opened_of opened.now) args.now amount (state_of now.now) (lent scene.entry))
        (feed_of feed.new).events result }
    ensures left { (feed_of feed.new).left ≡ (feed_of feed.old).left }
{
    let key = key_of(alloc, args)?;
    let content = now.content_at(opened.predicate, &key);
    let mut copy = copy_state(alloc, now)?;
    let instance = InstanceKey::of(opened.predicate, key);
    take(scene, &mut copy, instance, amount, opened.place)?;
    let content = found(content)?;
    let inside = scene.with_variables(args);
    open_in(
        alloc,
        &opened.body,
        content,
        &mut copy,
        inside,
        amount,
        feed,
    )?;
    eval_in(alloc, &opened.inner, &copy, scene, feed)
}

/// Produces an assertion from a content, its amounts times a scale.
#[cycle(readings)]
pub fn open_in(
    alloc: Global,
    body: &Assertion,
    content: &Content,
    state: &mut State,
    scene: SceneRef,
    scale: Frac,
    feed: &mut Feed,
) -> Result<(), EvalHalt>
    requires body_within { IsWithinAssertion (assertion_of body.now) }
    requires content_within { IsWithinContent (content_of content.now) }
    requires state_within { IsWithinState (state_of state.old) }
    requires scene_within { IsWithinScene (lent scene) }
    ensures answers { Answers (λ _. state_of state.new) (feed_of feed.old).events
        (m.opened Bounded (assertion_of body.now) (content_of content.now) (state_of state.old) (lent scene.entry) scale)
        (feed_of feed.new).events result }
    ensures left { (feed_of feed.new).left ≡ (feed_of feed.old).left }
{
    match body {
        Assertion::Fact(e, _) => {
            assumed(truth_of(alloc, e, state, scene, feed)?)?;
            Ok(unit(content)?)
        }
        Assertion::Acc(e, field, amount, at) => {
            let receiver = reference_of(alloc, e, state, scene, feed)?;
            let amount = amount_of(alloc, amount, state, scene, feed)?;
            let place = HeapPlace::of(*field, receiver);
            let share = ScaledAmount::of(amount, scale, *at);
            fill_place(scene, state, place, share, content, feed)
        }
        Assertion::Inst(predicate, args, amount, at) => {
            let key = key_in(alloc, args, state, scene, feed)?;
            let amount = amount_of(alloc, amount, state, scene, feed)?;
            let instance = InstanceKey::of(*predicate, key);
            let share = ScaledAmount::of(amount, scale, *at);
            fill_instance(alloc, scene, state, instance, share, content)
        }
        Assertion::And(a, b) => {
            let (left, right) = split(alloc, content, feed)?;
            open_in(alloc, a, left, state, scene, scale, feed)?;
            open_in(alloc, b, right, state, scene, scale, feed)
        }
        Assertion::Implies(e, a) => {
            if truth_of(alloc, e, state, scene, feed)? {
                open_in(alloc, a, content, state, scene, scale, feed)
            } else {
                Ok(unit(content)?)
            }
        }
        Assertion::Choose(e, a, b) => {
            if truth_of(alloc, e, state, scene, feed)? {
                open_in(alloc, a, content, state, scene, scale, feed)
            } else {
                open_in(alloc, b, content, state, scene, scale, feed)
            }
        }
    }
}
