// Evaluation and opening for callers outside of these crates, by a state and a scene.
ghost use Rattle.std.specs.Prelude.{◌≡◌, [], List, IfOk};
ghost use Rattle.vb_value.specs.Bound.{Bounded};
ghost use Rattle.vb_value.specs.Content.{IsWithinContent};
ghost use Rattle.vb_value.specs.View.{content_of};
ghost use Rattle.viper_core.specs.View.{expr_of, assertion_of};
ghost use Rattle.viper_state.specs.Event as event;
ghost use Rattle.viper_state.specs.State as tree;
ghost use Rattle.viper_state.specs.View.{scene_of, state_of, feed_of};
ghost use Rattle.viper_state.specs.Within.{IsWithinState, IsWithinScene};
ghost use Rattle.viper_meaning.specs.Ends as m;
ghost use Rattle.viper_meaning.specs.Ends.{the_end};
ghost use Rattle.viper_core.specs.Literals.{IsWithinExpr, IsWithinAssertion};
ghost use Rattle.viper_core.specs.Plain.{OpensNothing};
ghost use Rattle.viper_meaning.specs.Value.{value, opened};
ghost use Rattle.viper_eval.specs.Answers.{Answers, end_of, goes_with};

use crate::answers::{EvalHalt, EvalStop, Evaluated, Opening1};
use crate::readings::{eval_in, open_in};
use crate::scenes::SceneRef;
use std::alloc::Global;
use vb_base::Memory;
use vb_value::{Content, Frac, Value};
use viper_core::{Assertion, Expr};
use viper_state::{Feed, Scene, State};

/// How an evaluation ended, if not for lack of memory.
fn evaluated(answer: Result<Value, EvalHalt>) -> Result<Evaluated, Memory>
    ensures { (before since : List event.Event) (e : m.Evaluated Value) → Answers (λ v. v) before e since answer
        → IfOk result (λ v. m.after before e ≡ m.ends since (end_of v)) }
{
    match answer {
        Ok(value) => Ok(Evaluated::Is(value)),
        Err(EvalHalt::Stops(EvalStop::Fails(label))) => Ok(Evaluated::Fails(label)),
        Err(EvalHalt::Stops(EvalStop::Blocked)) => Ok(Evaluated::Blocked),
        Err(EvalHalt::Stops(EvalStop::Over(at))) => Ok(Evaluated::Over(at)),
        Err(EvalHalt::Memory) => Err(Memory),
    }
}

/// How an opening ended, if not for lack of memory.
fn opening(answer: Result<(), EvalHalt>) -> Result<Opening1, Memory>
    ensures { (before since : List event.Event) (e : m.Evaluated tree.State) (s : tree.State)
        → Answers (λ _. s) before e since answer
        → IfOk result (λ o. m.after before e ≡ m.ends since (goes_with s o)) }
{
    match answer {
        Ok(()) => Ok(Opening1::Goes),
        Err(EvalHalt::Stops(EvalStop::Fails(label))) => Ok(Opening1::Fails(label)),
        Err(EvalHalt::Stops(EvalStop::Blocked)) => Ok(Opening1::Blocked),
        Err(EvalHalt::Stops(EvalStop::Over(at))) => Ok(Opening1::Over(at)),
        Err(EvalHalt::Memory) => Err(Memory),
    }
}

/// The value of an expression in the state `now`, or how it ends without one.
///
/// Numbers have magnitude at most 2^127 - 1; what would leave this bound ends `Over`, at the operator, or at the name of the
/// field or predicate whose permission it is. The events that an `unfolding` records are appended to the feed. No choice is
/// taken. A state is copied only to read an `unfolding` in the copy.
///
/// `Memory` where there is no memory; what was then appended is a part of the work.
///
/// Source: Viper tutorial, "Expressions and assertions", "Permissions", "Predicates".
pub fn eval_open(
    alloc: Global,
    e: &Expr,
    now: &State,
    scene: &Scene,
    feed: &mut Feed,
) -> Result<Evaluated, Memory>
    requires e_within { IsWithinExpr (expr_of e.now) }
    requires now_within { IsWithinState (state_of now.now) }
    requires scene_within { IsWithinScene (scene_of scene.now) }
    ensures value { IfOk result (λ v. m.after (feed_of feed.old).events
        (value Bounded (expr_of e.now) (state_of now.now) (scene_of scene.now)) ≡ m.ends (feed_of feed.new).events (end_of v)) }
    ensures no_choice { (feed_of feed.new).left ≡ (feed_of feed.old).left }
{
    evaluated(eval_in(alloc, e, now, SceneRef::of(scene), feed))
}

/// The same without the events. An expression without `unfolding` records none.
///
/// `Memory` where there is no memory.
pub fn eval(alloc: Global, e: &Expr, now: &State, scene: &Scene) -> Result<Evaluated, Memory>
    requires e_within { IsWithinExpr (expr_of e.now) }
    requires now_within { IsWithinState (state_of now.now) }
    requires scene_within { IsWithinScene (scene_of scene.now) }
    ensures value { IfOk result (λ v. end_of v ≡ the_end (value Bounded (expr_of e.now) (state_of now.now) (scene_of scene.now))) }
    ensures plain { OpensNothing (expr_of e.now) → IfOk result (λ v.
        value Bounded (expr_of e.now) (state_of now.now) (scene_of scene.now) ≡ m.ends [] (end_of v)) }
{
    let mut feed = Feed {
        choices: Vec::new(alloc),
        next: 0,
        events: Vec::new(alloc),
    };
    eval_open(alloc, e, now, scene, &mut feed)
}

/// Produces the body of a predicate from what an instance contains, each amount in it times `scale`.
///
/// `Goes` leaves the state that the body has made. After another end, and after `Memory`, the state holds some part of the
/// work. The events are appended to the feed, for each of these ends; no choice is taken.
///
/// Source: Viper tutorial, "Predicates"; a content stands for the snapshot of an instance.
pub fn open_body(
    alloc: Global,
    body: &Assertion,
    content: &Content,
    state: &mut State,
    scene: &Scene,
    scale: Frac,
    feed: &mut Feed,
) -> Result<Opening1, Memory>
    requires body_within { IsWithinAssertion (assertion_of body.now) }
    requires content_within { IsWithinContent (content_of content.now) }
    requires state_within { IsWithinState (state_of state.old) }
    requires scene_within { IsWithinScene (scene_of scene.now) }
    ensures opened { IfOk result (λ o. m.after (feed_of feed.old).events
        (opened Bounded (assertion_of body.now) (content_of content.now) (state_of state.old) (scene_of scene.now) scale)
        ≡ m.ends (feed_of feed.new).events (goes_with (state_of state.new) o)) }
    ensures no_choice { (feed_of feed.new).left ≡ (feed_of feed.old).left }
{
    opening(open_in(
        alloc,
        body,
        content,
        state,
        SceneRef::of(scene),
        scale,
        feed,
    ))
}
