// Contents, folding and unfolding for callers outside of these crates.
ghost use Rattle.std.specs.Prelude.{◌≡◌, IfOk, Some};
ghost use Rattle.vb_value.specs.Bound.{Bounded};
ghost use Rattle.vb_value.specs.Content as tree;
ghost use Rattle.viper_core.specs.Expr as t;
ghost use Rattle.viper_core.specs.Literals.{IsWithinExpr, AreWithinExprs, IsWithinAssertion};
ghost use Rattle.viper_core.specs.View.{assertion_of, fold_of, program_of};
ghost use Rattle.viper_state.specs.View.{scene_of, state_of, feed_of};
ghost use Rattle.viper_state.specs.Within.{IsWithinState, IsWithinScene};
ghost use Rattle.viper_meaning.specs.Contents as m;
ghost use Rattle.viper_meaning.specs.Run as run;
ghost use Rattle.viper_meaning.specs.Sat.{Has};
ghost use Rattle.viper_inhale.specs.Answers.{run_of, step_of};
ghost use Rattle.viper_fold.specs.Steps.{if_small};
ghost use Rattle.viper_fold.specs.View.{contained_of};

use crate::contents::{content_in, is_small};
use crate::folding::fold_in;
use crate::unfolding::unfold_in;
use std::alloc::Global;
use vb_base::Memory;
use vb_value::Content;
use viper_core::{Assertion, FoldStmt, Program};
use viper_eval::{EvalHalt, SceneRef};
use viper_inhale::{Step, step};
use viper_state::{Feed, Scene, State};

/// What an assertion contains.
#[derive(Drop)]
pub enum Contained {
    Is(Content),
    /// It has more than `MAX_CONTENT_NODES` nodes.
    Over,
}

/// What an assertion contains in a state. Each expression is read in the state.
///
/// `Memory` where there is no memory.
///
/// A content stands for the snapshot of an instance (Viper tutorial, "Predicates").
pub fn content_of(
    alloc: Global,
    a: &Assertion,
    state: &State,
    scene: &Scene,
) -> Result<Contained, Memory>
    requires a_within { IsWithinAssertion (assertion_of a.now) }
    requires state_within { IsWithinState (state_of state.now) }
    requires scene_within { IsWithinScene (scene_of scene.now) }
    requires has_content { (c : tree.Content) × Has c (m.content_in Bounded (assertion_of a.now) (state_of state.now) (scene_of scene.now)) }
    ensures content { (c : tree.Content) → Has c (m.content_in Bounded (assertion_of a.now) (state_of state.now) (scene_of scene.now))
        → IfOk result (λ x. contained_of x ≡ if_small c) }
{
    let mut feed = Feed {
        choices: Vec::new(alloc),
        next: 0,
        events: Vec::new(alloc),
    };
    match content_in(alloc, a, state, SceneRef::of(scene), &mut feed) {
        Ok(content) if is_small(&content) => Ok(Contained::Is(content)),
        Ok(_) => Ok(Contained::Over),
        Err(EvalHalt::Memory) => Err(Memory),
        Err(EvalHalt::Stops(_)) => unreachable!(),
    }
}

/// Folds an instance: consumes the body of the predicate, each amount in it times that of the `fold`, and holds the instance
/// in its place, with what the body contained.
///
/// `Goes` leaves the state after the `fold`. After another end, and after `Memory`, `state` holds some part of the work. The
/// events and the choices that are left are exact after each `Step`.
///
/// Source: Viper tutorial, "Predicates"; a content stands for the snapshot of an instance.
pub fn fold(
    alloc: Global,
    program: &Program,
    s: &FoldStmt,
    state: &mut State,
    scene: &Scene,
    feed: &mut Feed,
) -> Result<Step, Memory>
    requires args_within { AreWithinExprs (fold_of s.now).args }
    requires amount_within { IsWithinExpr (fold_of s.now).amount }
    requires body_within { (body : t.Assertion) → m.body_of (program_of program.now) s.now.predicate ≡ Some body → IsWithinAssertion body }
    requires state_within { IsWithinState (state_of state.old) }
    requires scene_within { IsWithinScene (scene_of scene.now) }
    ensures step { IfOk result (λ step. run_of
        (m.fold_instance Bounded (program_of program.now) (fold_of s.now) (state_of state.old) (scene_of scene.now)) (feed_of feed.old)
        ≡ run.ran (feed_of feed.new).events (step_of (state_of state.new) step) (feed_of feed.new).left) }
{
    let scene = SceneRef::of(scene);
    step(fold_in(alloc, program, s, state, scene, feed))
}

/// Unfolds an instance: takes it, and produces the body of the predicate from what the instance contains, each amount in it
/// times that of the `unfold`. No choice is taken.
///
/// `Goes` leaves the state after the `unfold`. After another end, and after `Memory`, `state` holds some part of the work. The
/// events are exact after each `Step`.
///
/// Source: Viper tutorial, "Predicates"; a content stands for the snapshot of an instance.
pub fn unfold(
    alloc: Global,
    program: &Program,
    s: &FoldStmt,
    state: &mut State,
    scene: &Scene,
    feed: &mut Feed,
) -> Result<Step, Memory>
    requires args_within { AreWithinExprs (fold_of s.now).args }
    requires amount_within { IsWithinExpr (fold_of s.now).amount }
    requires body_within { (body : t.Assertion) → m.body_of (program_of program.now) s.now.predicate ≡ Some body → IsWithinAssertion body }
    requires state_within { IsWithinState (state_of state.old) }
    requires scene_within { IsWithinScene (scene_of scene.now) }
    ensures step { IfOk result (λ step. run_of
        (run.ended (m.unfold_instance Bounded (program_of program.now) (fold_of s.now) (state_of state.old) (scene_of scene.now))) (feed_of feed.old)
        ≡ run.ran (feed_of feed.new).events (step_of (state_of state.new) step) (feed_of feed.new).left) }
{
    let scene = SceneRef::of(scene);
    step(unfold_in(alloc, program, s, state, scene, feed))
}
