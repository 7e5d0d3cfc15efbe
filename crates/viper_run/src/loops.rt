// The parts of a loop around its body.
ghost use Rattle.std.specs.Prelude.{All};
ghost use Rattle.vb_value.specs.Bound.{Bounded};
ghost use Rattle.viper_core.specs.Literals.{IsWithinAssertion, IsWithinExpr};
ghost use Rattle.viper_core.specs.View.{assertions_of, expr_of};
ghost use Rattle.viper_state.specs.View.{feed_of};
ghost use Rattle.viper_meaning.specs.Statements as m;
ghost use Rattle.viper_inhale.specs.Answers.{Does};
ghost use Rattle.viper_run.specs.Ready.{IsReady};
ghost use Rattle.viper_run.specs.Steps.{guarded, loop_entered, turn_begun};
ghost use Rattle.viper_run.specs.View.{activation_of, configuration_of};

use crate::activations::{Activation, Configuration};
use crate::choices::{take_state, take_values};
use crate::clauses::{consume_all, exhale_all, produce_all};
use std::alloc::Global;
use viper_core::Loop;
use viper_eval::{assumed, truth_of};
use viper_inhale::{StepHalt, StepStop};
use viper_state::{Feed, copy_state};

/// The invariant is exhaled, and the loop targets take any values.
pub(crate) fn enter_loop(
    alloc: Global,
    activation: Activation,
    turns: &Loop,
    configuration: &mut Configuration,
    feed: &mut Feed,
) -> Result<(), StepHalt>
    requires invariants_within { All IsWithinAssertion (assertions_of turns.now.invariants.items) }
    requires ready { IsReady (activation_of activation) (configuration_of configuration.old) (feed_of feed.old) }
    ensures { Does (λ _. configuration_of configuration.new) (feed_of feed.old)
        (loop_entered (activation_of activation.entry) turns.now.at (assertions_of turns.now.invariants.items) turns.now.targets.items (configuration_of configuration.old))
        (feed_of feed.new) result }
{
    let scene = activation.scene(&configuration.store, turns.at);
    exhale_all(
        alloc,
        &turns.invariants,
        scene,
        &mut configuration.state,
        feed,
    )?;
    let values = take_values(alloc, activation.vars, &turns.targets, feed)?;
    configuration.store.set_all(&turns.targets, &values);
    Ok(())
}

/// The invariant is produced on top of what is held. A turn continues where the guard holds, and the loop is left where it does not.
pub(crate) fn assume_guard(
    alloc: Global,
    activation: Activation,
    turns: &Loop,
    wanted: bool,
    configuration: &mut Configuration,
    feed: &mut Feed,
) -> Result<(), StepHalt>
    requires guard_within { IsWithinExpr (expr_of turns.now.guard) }
    requires invariants_within { All IsWithinAssertion (assertions_of turns.now.invariants.items) }
    requires ready { IsReady (activation_of activation) (configuration_of configuration.old) (feed_of feed.old) }
    ensures { Does (λ _. configuration_of configuration.new) (feed_of feed.old)
        (guarded wanted (activation_of activation.entry) turns.now.at (expr_of turns.now.guard) (assertions_of turns.now.invariants.items) (configuration_of configuration.old) (configuration_of configuration.old).state)
        (feed_of feed.new) result }
{
    let scene = activation.scene(&configuration.store, turns.at);
    produce_all(
        alloc,
        &turns.invariants,
        scene,
        &mut configuration.state,
        feed,
    )?;
    let holds = truth_of(alloc, &turns.guard, &configuration.state, scene, feed)?;
    Ok(assumed(if wanted { holds } else { !holds })?)
}

/// A turn begins in any state that the invariant and the guard allow, in which nothing else is held.
pub(crate) fn begin_turn(
    alloc: Global,
    activation: Activation,
    turns: &Loop,
    configuration: &mut Configuration,
    feed: &mut Feed,
) -> Result<(), StepHalt>
    requires guard_within { IsWithinExpr (expr_of turns.now.guard) }
    requires invariants_within { All IsWithinAssertion (assertions_of turns.now.invariants.items) }
    requires ready { IsReady (activation_of activation) (configuration_of configuration.old) (feed_of feed.old) }
    ensures { Does (λ _. configuration_of configuration.new) (feed_of feed.old)
        (turn_begun (activation_of activation.entry) turns.now.at (expr_of turns.now.guard) (assertions_of turns.now.invariants.items) (configuration_of configuration.old))
        (feed_of feed.new) result }
{
    configuration.state = take_state(alloc, activation.program, feed)?;
    assume_guard(alloc, activation, turns, true, configuration, feed)
}

/// A turn ends with the invariant. Nothing continues after it.
pub(crate) fn end_turn(
    alloc: Global,
    activation: Activation,
    turns: &Loop,
    configuration: &Configuration,
    feed: &mut Feed,
) -> Result<(), StepHalt>
    requires invariants_within { All IsWithinAssertion (assertions_of turns.now.invariants.items) }
    requires ready { IsReady (activation_of activation) (configuration_of configuration.now) (feed_of feed.old) }
    ensures { Does (λ _. configuration_of configuration.now) (feed_of feed.old)
        (m.in_vain (m.consume_all Bounded (assertions_of turns.now.invariants.items) (configuration_of configuration.now).state
        (m.scene (activation_of activation.entry) (configuration_of configuration.now) turns.now.turn) (configuration_of configuration.now).state))
        (feed_of feed.new) result }
{
    let scene = activation.scene(&configuration.store, turns.turn);
    let mut left = copy_state(alloc, &configuration.state)?;
    consume_all(
        alloc,
        &turns.invariants,
        &configuration.state,
        scene,
        &mut left,
        feed,
    )?;
    Err(StepHalt::Stops(StepStop::Blocked))
}
