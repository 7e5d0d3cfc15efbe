// Clauses: several assertions are one conjunction in their order.
ghost use Rattle.std.specs.Prelude.{◌≡◌, All};
ghost use Rattle.vb_value.specs.Bound.{Bounded};
ghost use Rattle.viper_core.specs.Literals.{IsWithinAssertion};
ghost use Rattle.viper_core.specs.Program as p;
ghost use Rattle.viper_core.specs.View.{assertions_of};
ghost use Rattle.viper_state.specs.Fits.{HasMaps, FitsChoice};
ghost use Rattle.viper_state.specs.View.{feed_of, state_of};
ghost use Rattle.viper_state.specs.Within.{IsWithinChoice, IsWithinScene, IsWithinState};
ghost use Rattle.viper_meaning.specs.Statements as m;
ghost use Rattle.viper_eval.specs.View.{lent};
ghost use Rattle.viper_inhale.specs.Answers.{Does};

use std::alloc::Global;
use vb_value::Frac;
use viper_core::Assertion;
use viper_eval::SceneRef;
use viper_inhale::{StepHalt, consume_in, forget_in, produce_in};
use viper_state::{Feed, State, copy_state};

/// Produces clauses, one after the other.
pub(crate) fn produce_all(
    alloc: Global,
    clauses: &[Assertion],
    scene: SceneRef,
    state: &mut State,
    feed: &mut Feed,
) -> Result<(), StepHalt>
    requires clauses_within { All IsWithinAssertion (assertions_of clauses.now) }
    requires state_within { IsWithinState (state_of state.old) }
    requires scene_within { IsWithinScene (lent scene) }
    requires choices_within { All IsWithinChoice (feed_of feed.old).left }
    ensures { Does (λ _. state_of state.new) (feed_of feed.old)
        (m.produce_all Bounded (assertions_of clauses.now) (lent scene.entry) (state_of state.old)) (feed_of feed.new) result }
{
    for clause in clauses {
        produce_in(alloc, clause, state, scene, Frac::write(), feed)?;
    }
    Ok(())
}

/// Consumes clauses, one after the other. Each expression is read in the state at the start.
pub fn consume_all(
    alloc: Global,
    clauses: &[Assertion],
    start: &State,
    scene: SceneRef,
    left: &mut State,
    feed: &mut Feed,
) -> Result<(), StepHalt>
    requires clauses_within { All IsWithinAssertion (assertions_of clauses.now) }
    requires start_within { IsWithinState (state_of start.now) }
    requires scene_within { IsWithinScene (lent scene) }
    ensures { Does (λ _. state_of left.new) (feed_of feed.old)
        (m.consume_all Bounded (assertions_of clauses.now) (state_of start.now) (lent scene.entry) (state_of left.old)) (feed_of feed.new) result }
{
    for clause in clauses {
        consume_in(alloc, clause, start, left, scene, Frac::write(), feed)?;
    }
    Ok(())
}

/// Consumes clauses in a state of which the start is a copy, and forgets what is then no longer held.
pub(crate) fn give_up(
    alloc: Global,
    clauses: &[Assertion],
    start: &State,
    scene: SceneRef,
    left: &mut State,
    feed: &mut Feed,
) -> Result<(), StepHalt>
    requires clauses_within { All IsWithinAssertion (assertions_of clauses.now) }
    requires start_within { IsWithinState (state_of start.now) }
    requires scene_within { IsWithinScene (lent scene) }
    requires same { state_of start.now ≡ state_of left.old }
    ensures { (q : p.Program) → HasMaps q.layout (state_of left.old) → All (FitsChoice q.layout) (feed_of feed.old).left
        → Does (λ _. state_of left.new) (feed_of feed.old)
        (m.exhale_all Bounded q (assertions_of clauses.now) (state_of left.old) (lent scene.entry)) (feed_of feed.new) result }
{
    consume_all(alloc, clauses, start, scene, left, feed)?;
    forget_in(alloc, left, feed)
}

/// The same, where no copy of the state is at hand.
pub(crate) fn exhale_all(
    alloc: Global,
    clauses: &[Assertion],
    scene: SceneRef,
    state: &mut State,
    feed: &mut Feed,
) -> Result<(), StepHalt>
    requires clauses_within { All IsWithinAssertion (assertions_of clauses.now) }
    requires state_within { IsWithinState (state_of state.old) }
    requires scene_within { IsWithinScene (lent scene) }
    ensures { (q : p.Program) → HasMaps q.layout (state_of state.old) → All (FitsChoice q.layout) (feed_of feed.old).left
        → Does (λ _. state_of state.new) (feed_of feed.old)
        (m.exhale_all Bounded q (assertions_of clauses.now) (state_of state.old) (lent scene.entry)) (feed_of feed.new) result }
{
    let start = copy_state(alloc, state)?;
    give_up(alloc, clauses, &start, scene, state, feed)
}
