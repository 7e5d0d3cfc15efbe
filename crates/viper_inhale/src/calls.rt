// Consuming, producing and forgetting for callers outside of these crates, each ended by a step.
ghost use Rattle.std.specs.Prelude.{◌≡◌, All, IfOk, true};
ghost use Rattle.vb_value.specs.Bound.{Bounded};
ghost use Rattle.vb_value.specs.Fraction.{is_positive};
ghost use Rattle.vb_value.specs.Layout.{Layout};
ghost use Rattle.viper_core.specs.Literals.{IsWithinAssertion};
ghost use Rattle.viper_core.specs.View.{assertion_of};
ghost use Rattle.viper_state.specs.Fits.{FitsChoice, HasMaps};
ghost use Rattle.viper_state.specs.Run.{Feed as Fed};
ghost use Rattle.viper_state.specs.State as tree;
ghost use Rattle.viper_state.specs.View.{scene_of, state_of, feed_of};
ghost use Rattle.viper_state.specs.Within.{IsWithinState, IsWithinScene, IsWithinFeed};
ghost use Rattle.viper_meaning.specs.Run as run;
ghost use Rattle.viper_meaning.specs.Assertions as m;
ghost use Rattle.viper_meaning.specs.Forgotten as forgotten;
ghost use Rattle.viper_inhale.specs.Answers.{Does, run_of, step_of};

use crate::answers::{Step, StepHalt, StepStop};
use crate::consuming::consume_in;
use crate::forgetting::forget_in;
use crate::producing::produce_in;
use std::alloc::Global;
use vb_base::Memory;
use vb_value::Frac;
use viper_core::Assertion;
use viper_eval::SceneRef;
use viper_state::{Feed, Scene, State};

/// How a step ended, if not for lack of memory.
pub fn step(answer: Result<(), StepHalt>) -> Result<Step, Memory>
    ensures { (f g : Fed) (r : run.Run tree.State) (s : tree.State) → Does (λ _. s) f r g answer
        → IfOk result (λ step. run_of r f ≡ run.ran g.events (step_of s step) g.left) }
{
    match answer {
        Ok(()) => Ok(Step::Goes),
        Err(StepHalt::Stops(StepStop::Fails(label))) => Ok(Step::Fails(label)),
        Err(StepHalt::Stops(StepStop::Blocked)) => Ok(Step::Blocked),
        Err(StepHalt::Stops(StepStop::Short)) => Ok(Step::Short),
        Err(StepHalt::Stops(StepStop::Over(at))) => Ok(Step::Over(at)),
        Err(StepHalt::Memory) => Err(Memory),
    }
}

/// Consumes an assertion: each expression is read in the state `start`, and permission is taken from `left`, each amount that
/// is written times `scale`.
///
/// `Goes` leaves the state that is left. After another end, and after `Memory`, `left` holds some part of the work. The
/// events and the choices that are left are exact after each `Step`.
///
/// Source: Mueller, Schwerhoff, Summers, VMCAI 2016 (exhale).
pub fn consume(
    alloc: Global,
    a: &Assertion,
    start: &State,
    left: &mut State,
    scene: &Scene,
    scale: Frac,
    feed: &mut Feed,
) -> Result<Step, Memory>
    requires a_within { IsWithinAssertion (assertion_of a.now) }
    requires start_within { IsWithinState (state_of start.now) }
    requires scene_within { IsWithinScene (scene_of scene.now) }
    requires scale_positive { is_positive scale ≡ true }
    ensures step { IfOk result (λ step. run_of
        (m.consume Bounded (assertion_of a.now) (state_of start.now) (scene_of scene.now) scale (state_of left.old)) (feed_of feed.old)
        ≡ run.ran (feed_of feed.new).events (step_of (state_of left.new) step) (feed_of feed.new).left) }
{
    let scene = SceneRef::of(scene);
    step(consume_in(alloc, a, start, left, scene, scale, feed))
}

/// Produces an assertion: each expression is read in the state that the earlier parts have made, and permission is added, each
/// amount times `scale`.
///
/// `Goes` leaves the state that was made. After another end, and after `Memory`, `state` holds some part of the work. The
/// events and the choices that are left are exact after each `Step`.
///
/// Source: Mueller, Schwerhoff, Summers, VMCAI 2016 (inhale).
pub fn produce(
    alloc: Global,
    a: &Assertion,
    state: &mut State,
    scene: &Scene,
    scale: Frac,
    feed: &mut Feed,
) -> Result<Step, Memory>
    requires a_within { IsWithinAssertion (assertion_of a.now) }
    requires state_within { IsWithinState (state_of state.old) }
    requires scene_within { IsWithinScene (scene_of scene.now) }
    requires feed_within { IsWithinFeed (feed_of feed.old) }
    requires scale_positive { is_positive scale ≡ true }
    ensures step { IfOk result (λ step. run_of
        (m.produce Bounded (assertion_of a.now) (scene_of scene.now) scale (state_of state.old)) (feed_of feed.old)
        ≡ run.ran (feed_of feed.new).events (step_of (state_of state.new) step) (feed_of feed.new).left) }
{
    let scene = SceneRef::of(scene);
    step(produce_in(alloc, a, state, scene, scale, feed))
}

/// Forgets the value of each place to which nothing is held, and what each instance contains of which nothing is held. The
/// next choice, a heap and contents, says what stands there from then on; what is held keeps its value.
///
/// `Goes` leaves the state after forgetting. The events and the choices that are left are exact after each `Step`, where the
/// choices fit a layout whose maps the state has. `Memory` where there is no memory.
pub fn forget(alloc: Global, state: &mut State, feed: &mut Feed) -> Result<Step, Memory>
    ensures step { (l : Layout) → HasMaps l (state_of state.old) → All (FitsChoice l) (feed_of feed.old).left → IfOk result (λ step. run_of
        (forgotten.forget l (state_of state.old)) (feed_of feed.old)
        ≡ run.ran (feed_of feed.new).events (step_of (state_of state.new) step) (feed_of feed.new).left) }
{
    step(forget_in(alloc, state, feed))
}
