// Folding: the body of a predicate is consumed, and the instance is held in its place.
ghost use Rattle.std.specs.Prelude.{◌≡◌, All, Some};
ghost use Rattle.std.specs.Option.{option_map};
ghost use Rattle.vb_value.specs.Bound.{Bounded};
ghost use Rattle.vb_value.specs.Fraction.{write};
ghost use Rattle.vb_value.specs.Value.{IsWithinValue};
ghost use Rattle.viper_core.specs.Expr as t;
ghost use Rattle.viper_core.specs.Literals.{IsWithinExpr, AreWithinExprs, IsWithinAssertion};
ghost use Rattle.viper_core.specs.View.{assertion_of, fold_of, program_of};
ghost use Rattle.viper_state.specs.View.{state_of, feed_of};
ghost use Rattle.viper_state.specs.Within.{IsWithinState, IsWithinScene};
ghost use Rattle.viper_meaning.specs.Contents as m;
ghost use Rattle.viper_eval.specs.Answers as reading;
ghost use Rattle.viper_eval.specs.View.{lent};
ghost use Rattle.viper_inhale.specs.Answers.{Does};
ghost use Rattle.viper_fold.specs.Steps.{folded_by, folded_at};

use crate::contents::small_content;
use std::alloc::Global;
use vb_base::{Kind, Pos};
use vb_value::{Frac, Value};
use viper_core::{Assertion, FoldStmt, Program};
use viper_eval::{
    EvalStop, InstanceKey, ScaledAmount, SceneRef, eval_all, failure, fill_held, found, key_of,
    permission_of,
};
use viper_inhale::{StepHalt, consume_in};
use viper_state::{Feed, State, copy_state};

/// The body of a predicate that has one.
pub(crate) fn body_of(program: &Program, predicate: u32) -> Option<&Assertion>
    ensures { option_map (λ body. assertion_of body.now) result ≡ m.body_of (program_of program.now) predicate }
{
    match program.predicates.get(predicate as usize) {
        Some(declared) => declared.body.as_ref(),
        None => None,
    }
}

/// The amount of a `fold`, which has to be positive.
fn positive_amount(scene: SceneRef, at: Pos, amount: Frac) -> Result<Frac, EvalStop>
    ensures { reading.ended result ≡ m.positive_amount (lent scene.entry) at amount }
{
    if Frac::is_positive(amount) {
        Ok(amount)
    } else {
        Err(failure(scene, at, Kind::Amount))
    }
}

/// The body of a predicate, and what is seen in it: the variables are its arguments.
#[derive(Clone, Copy)]
struct OpenedBody<'a> {
    body: &'a Assertion,
    scene: SceneRef<'a>,
}

/// The values of the arguments, and the amount, of a `fold` or `unfold`.
#[derive(Clone, Copy)]
pub(crate) struct FoldValues<'a> {
    pub args: &'a [Value],
    pub amount: Frac,
}

/// Holds so much more of an instance, which takes what its body contained at the start.
fn close(
    alloc: Global,
    inside: OpenedBody,
    start: &State,
    instance: InstanceKey,
    share: ScaledAmount,
    left: &mut State,
    feed: &mut Feed,
) -> Result<(), viper_eval::EvalHalt>
    requires body_within { IsWithinAssertion (assertion_of inside.body.now) }
    requires start_within { IsWithinState (state_of start.now) }
    requires scene_within { IsWithinScene (lent inside.scene) }
    requires whole { share.scale ≡ write }
    ensures answers { reading.Answers (λ _. state_of left.new) (feed_of feed.old).events
        (m.closed Bounded (assertion_of inside.entry.body.now) (state_of start.now) (lent inside.entry.scene) instance.predicate instance.key share.amount share.at (state_of left.old))
        (feed_of feed.new).events result }
    ensures left { (feed_of feed.new).left ≡ (feed_of feed.old).left }
{
    let OpenedBody { body, scene } = inside;
    let content = small_content(alloc, body, start, scene, share.at, feed)?;
    fill_held(alloc, left, instance, share, &content)
}

/// Folds an instance whose body is known.
fn fold_by(
    alloc: Global,
    inside: OpenedBody,
    instance: InstanceKey,
    share: ScaledAmount,
    state: &mut State,
    feed: &mut Feed,
) -> Result<(), StepHalt>
    requires body_within { IsWithinAssertion (assertion_of inside.body.now) }
    requires state_within { IsWithinState (state_of state.old) }
    requires scene_within { IsWithinScene (lent inside.scene) }
    requires whole { share.scale ≡ write }
    ensures { Does (λ _. state_of state.new) (feed_of feed.old)
        (folded_by (assertion_of inside.entry.body.now) (lent inside.entry.scene) instance.predicate instance.key share.amount share.at (state_of state.old))
        (feed_of feed.new) result }
{
    let start = copy_state(alloc, state)?;
    let OpenedBody { body, scene } = inside;
    consume_in(alloc, body, &start, state, scene, share.amount, feed)?;
    Ok(close(alloc, inside, &start, instance, share, state, feed)?)
}

/// The same once the values of the arguments and the amount are known.
fn fold_at(
    alloc: Global,
    program: &Program,
    s: &FoldStmt,
    values: FoldValues,
    state: &mut State,
    scene: SceneRef,
    feed: &mut Feed,
) -> Result<(), StepHalt>
    requires body_within { (body : t.Assertion) → m.body_of (program_of program.now) s.now.predicate ≡ Some body → IsWithinAssertion body }
    requires args_within { All IsWithinValue values.args.now }
    requires state_within { IsWithinState (state_of state.old) }
    requires scene_within { IsWithinScene (lent scene) }
    ensures { Does (λ _. state_of state.new) (feed_of feed.old)
        (folded_at (program_of program.now) (fold_of s.now) values.entry.args.now values.entry.amount (state_of state.old) (lent scene.entry)) (feed_of feed.new) result }
{
    let key = key_of(alloc, values.args)?;
    let body = found(body_of(program, s.predicate))?;
    let amount = positive_amount(scene, s.place, values.amount)?;
    let instance = InstanceKey::of(s.predicate, key);
    let share = ScaledAmount::of(amount, Frac::write(), s.place);
    let scene = scene.with_variables(values.args);
    fold_by(
        alloc,
        OpenedBody { body, scene },
        instance,
        share,
        state,
        feed,
    )
}

/// Folds an instance: consumes the body of the predicate, each amount in it times that of the `fold`, and holds the instance
/// in its place, with what the body contained.
///
/// `Ok` leaves the state after the `fold`. After an `Err`, `state` holds some part of the work. The events and the choices
/// that are left are exact after each end but `Memory`.
///
/// Source: Viper tutorial, "Predicates"; a content stands for the snapshot of an instance.
pub fn fold_in(
    alloc: Global,
    program: &Program,
    s: &FoldStmt,
    state: &mut State,
    scene: SceneRef,
    feed: &mut Feed,
) -> Result<(), StepHalt>
    requires args_within { AreWithinExprs (fold_of s.now).args }
    requires amount_within { IsWithinExpr (fold_of s.now).amount }
    requires body_within { (body : t.Assertion) → m.body_of (program_of program.now) s.now.predicate ≡ Some body → IsWithinAssertion body }
    requires state_within { IsWithinState (state_of state.old) }
    requires scene_within { IsWithinScene (lent scene) }
    ensures { Does (λ _. state_of state.new) (feed_of feed.old)
        (m.fold_instance Bounded (program_of program.now) (fold_of s.now) (state_of state.old) (lent scene.entry)) (feed_of feed.new) result }
{
    let args = eval_all(alloc, &s.args, state, scene, feed)?;
    let amount = permission_of(alloc, &s.amount, state, scene, feed)?;
    let values = FoldValues {
        args: &args,
        amount,
    };
    fold_at(alloc, program, s, values, state, scene, feed)
}
