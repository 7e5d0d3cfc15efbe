// Unfolding: an instance is taken, and the body of its predicate is produced from what the instance contains.
ghost use Rattle.std.specs.Prelude.{◌≡◌, All, Some, IfOk};
ghost use Rattle.std.specs.Option.{option_map};
ghost use Rattle.vb_value.specs.Bound.{Bounded};
ghost use Rattle.vb_value.specs.Value.{IsWithinValue};
ghost use Rattle.vb_value.specs.View.{content_of};
ghost use Rattle.viper_core.specs.Expr as t;
ghost use Rattle.viper_core.specs.Literals.{IsWithinExpr, AreWithinExprs, IsWithinAssertion};
ghost use Rattle.viper_core.specs.View.{fold_of, program_of};
ghost use Rattle.viper_state.specs.State.{content_at};
ghost use Rattle.viper_state.specs.View.{state_of, feed_of};
ghost use Rattle.viper_state.specs.Within.{IsWithinState, IsWithinScene};
ghost use Rattle.viper_meaning.specs.Contents as m;
ghost use Rattle.viper_meaning.specs.Ends.{found};
ghost use Rattle.viper_meaning.specs.Run as run;
ghost use Rattle.viper_eval.specs.Answers as reading;
ghost use Rattle.viper_eval.specs.View.{lent};
ghost use Rattle.viper_inhale.specs.Answers.{Does};
ghost use Rattle.viper_fold.specs.Steps.{unfolded_at};

use crate::folding::{FoldValues, body_of};
use std::alloc::Global;
use vb_base::Memory;
use vb_value::{Content, Key};
use viper_core::{FoldStmt, Program};
use viper_eval::{InstanceKey, SceneRef, eval_all, found, key_of, open_in, permission_of, take};
use viper_inhale::StepHalt;
use viper_state::{Feed, State};

/// What an instance contains, shared with the state.
fn content_at(
    alloc: Global,
    state: &State,
    predicate: u32,
    key: &Key,
) -> Result<Option<Content>, Memory>
    ensures { IfOk result (λ c. option_map content_of c ≡ content_at (state_of state.now) predicate key.now) }
{
    match state.content_at(predicate, key) {
        Some(content) => Ok(Some(content.copy(alloc)?)),
        None => Ok(None),
    }
}

/// Unfolds an instance once the values of the arguments and the amount are known.
fn unfold_at(
    alloc: Global,
    program: &Program,
    s: &FoldStmt,
    values: FoldValues,
    state: &mut State,
    scene: SceneRef,
    feed: &mut Feed,
) -> Result<(), viper_eval::EvalHalt>
    requires body_within { (body : t.Assertion) → m.body_of (program_of program.now) s.now.predicate ≡ Some body → IsWithinAssertion body }
    requires args_within { All IsWithinValue values.args.now }
    requires state_within { IsWithinState (state_of state.old) }
    requires scene_within { IsWithinScene (lent scene) }
    ensures answers { reading.Answers (λ _. state_of state.new) (feed_of feed.old).events
        (unfolded_at (program_of program.now) (fold_of s.now) values.entry.args.now values.entry.amount (state_of state.old) (lent scene.entry)) (feed_of feed.new).events result }
    ensures left { (feed_of feed.new).left ≡ (feed_of feed.old).left }
{
    let FoldValues { args, amount } = values;
    let key = key_of(alloc, args)?;
    let body = found(body_of(program, s.predicate))?;
    let content = content_at(alloc, state, s.predicate, &key)?;
    let instance = InstanceKey::of(s.predicate, key);
    take(scene, state, instance, amount, s.place)?;
    let content = found(content)?;
    let inside = scene.with_variables(args);
    open_in(alloc, body, &content, state, inside, amount, feed)
}

/// Unfolds an instance: takes it, and produces the body of the predicate from what the instance contains, each amount in it
/// times that of the `unfold`. No choice is taken.
///
/// `Ok` leaves the state after the `unfold`. After an `Err`, `state` holds some part of the work. The events are exact after
/// each end but `Memory`.
///
/// Source: Viper tutorial, "Predicates"; a content stands for the snapshot of an instance.
pub fn unfold_in(
    alloc: Global,
    program: &Program,
    s: &FoldStmt,
    state: &mut State,
    scene: SceneRef,
    feed: &mut Feed,
) -> Result<(), StepHalt>
    requires args_within { AreWithinExprs (fold_of s.now).args }
    requires amount_within { IsWithinExpr (fold_of s.now).amount }
    requires body_within { (body : t.Assertion) → m.body_of (program_of program.now) s.now.predicate ≡ Some body → IsWithinAssertion body }
    requires state_within { IsWithinState (state_of state.old) }
    requires scene_within { IsWithinScene (lent scene) }
    ensures { Does (λ _. state_of state.new) (feed_of feed.old)
        (run.ended (m.unfold_instance Bounded (program_of program.now) (fold_of s.now) (state_of state.old) (lent scene.entry))) (feed_of feed.new) result }
{
    let args = eval_all(alloc, &s.args, state, scene, feed)?;
    let amount = permission_of(alloc, &s.amount, state, scene, feed)?;
    let values = FoldValues {
        args: &args,
        amount,
    };
    Ok(unfold_at(alloc, program, s, values, state, scene, feed)?)
}
