// What an assertion contains in a state.
ghost use Rattle.std.specs.Prelude.{◌≡◌, []};
ghost use Rattle.vb_value.specs.Bound.{Bounded};
ghost use Rattle.vb_value.specs.Content as tree;
ghost use Rattle.vb_value.specs.View.{content_of};
ghost use Rattle.viper_core.specs.Literals.{IsWithinExpr, AreWithinExprs, IsWithinAmount, IsWithinAssertion};
ghost use Rattle.viper_core.specs.View.{expr_of, exprs_of, amt_of, assertion_of};
ghost use Rattle.viper_state.specs.View.{state_of, feed_of};
ghost use Rattle.viper_state.specs.Within.{IsWithinState, IsWithinScene};
ghost use Rattle.viper_meaning.specs.Assertions.{place_in, instance_in};
ghost use Rattle.viper_meaning.specs.Contents as m;
ghost use Rattle.viper_meaning.specs.Ends.{is, then_with, fitting};
ghost use Rattle.viper_meaning.specs.Resource as resource;
ghost use Rattle.viper_eval.specs.Answers.{Answers};
ghost use Rattle.viper_eval.specs.View.{lent};
ghost use Rattle.viper_fold.specs.Steps.{part_of, small_content_in};

use std::alloc::Global;
use std::rc::Rc;
use vb_base::Pos;
use vb_base::limits::MAX_CONTENT_NODES;
use vb_value::{Content, Frac, Key};
use viper_core::{Amt, Assertion, Expr};
use viper_eval::{EvalHalt, EvalStop, SceneRef, amount_of, found, key_in, reference_of, truth_of};
use viper_state::{Feed, State};

/// What a place contains where so much of it is held.
fn part_of_place(now: &State, field: u32, reference: u64, amount: Frac) -> Result<Content, EvalHalt>
    ensures { Answers content_of [] (part_of (state_of now.now) (resource.Place field reference) amount) [] result }
{
    if Frac::is_positive(amount) {
        Ok(Content::Leaf(found(now.value_at(field, reference))?))
    } else {
        Ok(Content::Unit)
    }
}

/// What an instance contains where so much of it is held.
fn part_of_instance(
    alloc: Global,
    now: &State,
    predicate: u32,
    key: &Key,
    amount: Frac,
) -> Result<Content, EvalHalt>
    ensures { Answers content_of [] (part_of (state_of now.now) (resource.Instance predicate key.now) amount) [] result }
{
    if Frac::is_positive(amount) {
        Ok(found(now.content_at(predicate, key))?.copy(alloc)?)
    } else {
        Ok(Content::Unit)
    }
}

/// What a place contains, by the amount of its accessibility predicate.
fn content_of_place(
    alloc: Global,
    receiver: &Expr,
    field: u32,
    amount: &Amt,
    now: &State,
    scene: SceneRef,
    feed: &mut Feed,
) -> Result<Content, EvalHalt>
    requires receiver_within { IsWithinExpr (expr_of receiver.now) }
    requires amount_within { IsWithinAmount (amt_of amount.now) }
    requires now_within { IsWithinState (state_of now.now) }
    requires scene_within { IsWithinScene (lent scene) }
    ensures answers { Answers content_of (feed_of feed.old).events
        (then_with (place_in Bounded (expr_of receiver.now) field (state_of now.now) (lent scene.entry))
        (m.content_by Bounded (amt_of amount.now) (state_of now.now) (lent scene.entry))) (feed_of feed.new).events result }
    ensures left { (feed_of feed.new).left ≡ (feed_of feed.old).left }
{
    let reference = reference_of(alloc, receiver, now, scene, feed)?;
    let amount = amount_of(alloc, amount, now, scene, feed)?;
    part_of_place(now, field, reference, amount)
}

/// What an instance contains, by the amount of its accessibility predicate.
fn content_of_instance(
    alloc: Global,
    predicate: u32,
    args: &[Expr],
    amount: &Amt,
    now: &State,
    scene: SceneRef,
    feed: &mut Feed,
) -> Result<Content, EvalHalt>
    requires args_within { AreWithinExprs (exprs_of args.now) }
    requires amount_within { IsWithinAmount (amt_of amount.now) }
    requires now_within { IsWithinState (state_of now.now) }
    requires scene_within { IsWithinScene (lent scene) }
    ensures answers { Answers content_of (feed_of feed.old).events
        (then_with (instance_in Bounded predicate (exprs_of args.now) (state_of now.now) (lent scene.entry))
        (m.content_by Bounded (amt_of amount.now) (state_of now.now) (lent scene.entry))) (feed_of feed.new).events result }
    ensures left { (feed_of feed.new).left ≡ (feed_of feed.old).left }
{
    let key = key_in(alloc, args, now, scene, feed)?;
    let amount = amount_of(alloc, amount, now, scene, feed)?;
    part_of_instance(alloc, now, predicate, &key, amount)
}

/// The pair of two contents, however large.
fn pair_of(alloc: Global, left: Content, right: Content) -> Result<Content, EvalHalt>
    ensures { Answers content_of [] (is (tree.Pair (content_of left) (content_of right))) [] result }
{
    let left = Rc::new(alloc, left)?;
    let right = Rc::new(alloc, right)?;
    Ok(Content::Pair(left, right))
}

/// What an assertion contains, however large. Each expression is read in the state.
pub(crate) fn content_in(
    alloc: Global,
    assertion: &Assertion,
    now: &State,
    scene: SceneRef,
    feed: &mut Feed,
) -> Result<Content, EvalHalt>
    requires assertion_within { IsWithinAssertion (assertion_of assertion.now) }
    requires now_within { IsWithinState (state_of now.now) }
    requires scene_within { IsWithinScene (lent scene) }
    ensures answers { Answers content_of (feed_of feed.old).events
        (m.content_in Bounded (assertion_of assertion.now) (state_of now.now) (lent scene.entry)) (feed_of feed.new).events result }
    ensures left { (feed_of feed.new).left ≡ (feed_of feed.old).left }
{
    match assertion {
        Assertion::Fact(_, _) => Ok(Content::Unit),
        Assertion::Acc(e, field, amount, _) => {
            content_of_place(alloc, e, *field, amount, now, scene, feed)
        }
        Assertion::Inst(predicate, args, amount, _) => {
            content_of_instance(alloc, *predicate, args, amount, now, scene, feed)
        }
        Assertion::And(a, b) => {
            let left = content_in(alloc, a, now, scene, feed)?;
            let right = content_in(alloc, b, now, scene, feed)?;
            pair_of(alloc, left, right)
        }
        Assertion::Implies(e, a) => {
            if truth_of(alloc, e, now, scene, feed)? {
                content_in(alloc, a, now, scene, feed)
            } else {
                Ok(Content::Unit)
            }
        }
        Assertion::Choose(e, a, b) => {
            if truth_of(alloc, e, now, scene, feed)? {
                content_in(alloc, a, now, scene, feed)
            } else {
                content_in(alloc, b, now, scene, feed)
            }
        }
    }
}

/// Whether a content has not too many nodes.
pub(crate) fn is_small(content: &Content) -> bool
    ensures { result ≡ m.is_small (content_of content.now) }
{
    content.nodes() <= MAX_CONTENT_NODES
}

/// A content that is small, or an end at this place.
fn small(content: Content, at: Pos) -> Result<Content, EvalHalt>
    ensures { Answers content_of [] (fitting Bounded (m.is_small (content_of content)) at (content_of content)) [] result }
{
    if is_small(&content) {
        Ok(content)
    } else {
        Err(EvalHalt::Stops(EvalStop::Over(at)))
    }
}

/// What an assertion contains. One that is too large ends at this place.
pub(crate) fn small_content(
    alloc: Global,
    assertion: &Assertion,
    now: &State,
    scene: SceneRef,
    at: Pos,
    feed: &mut Feed,
) -> Result<Content, EvalHalt>
    requires assertion_within { IsWithinAssertion (assertion_of assertion.now) }
    requires now_within { IsWithinState (state_of now.now) }
    requires scene_within { IsWithinScene (lent scene) }
    ensures answers { Answers content_of (feed_of feed.old).events
        (small_content_in (assertion_of assertion.now) (state_of now.now) (lent scene.entry) at) (feed_of feed.new).events result }
    ensures left { (feed_of feed.new).left ≡ (feed_of feed.old).left }
{
    small(content_in(alloc, assertion, now, scene, feed)?, at)
}
