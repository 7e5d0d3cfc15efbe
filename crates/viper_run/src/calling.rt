// Calls of methods, by their contracts.
ghost use Rattle.std.specs.Prelude.{All};
ghost use Rattle.vb_value.specs.Bound.{Bounded};
ghost use Rattle.vb_value.specs.Value.{IsWithinValue};
ghost use Rattle.viper_core.specs.Literals.{IsWithinAssertion};
ghost use Rattle.viper_core.specs.View.{assertions_of, method_of};
ghost use Rattle.viper_state.specs.View.{feed_of, state_of};
ghost use Rattle.viper_state.specs.Within.{IsWithinChoice, IsWithinState};
ghost use Rattle.viper_meaning.specs.StatementLiterals.{IsWithinMethod};
ghost use Rattle.viper_meaning.specs.Statements as m;
ghost use Rattle.viper_inhale.specs.Answers.{Does};
ghost use Rattle.viper_run.specs.Ready.{IsReady};
ghost use Rattle.viper_run.specs.Steps.{call_ended};
ghost use Rattle.viper_run.specs.View.{activation_of, configuration_of};

use crate::activations::{Activation, Configuration};
use crate::choices::take_values;
use crate::clauses::{give_up, produce_all};
use std::alloc::Global;
use vb_base::Pos;
use vb_value::Value;
use viper_core::{Expr, Method};
use viper_eval::SceneRef;
use viper_inhale::StepHalt;
use viper_state::{Feed, State, copy_state};

/// A method that is called by its number, with these arguments.
#[derive(Clone, Copy)]
pub struct Invocation<'a> {
    pub method: u32,
    pub args: &'a [Expr],
}

/// A call whose method is known: its place, and the targets of the returns.
#[derive(Clone, Copy)]
pub struct Called<'a> {
    pub at: Pos,
    pub targets: &'a [u32],
    pub callee: &'a Method,
}

/// The end of a call: its postconditions are produced, in which `old` speaks of the state before it, and the targets take the
/// values of the returns.
fn end_call(
    alloc: Global,
    called: Called,
    mut args: Vec<Value>,
    returns: Vec<Value>,
    before: &State,
    configuration: &mut Configuration,
    feed: &mut Feed,
) -> Result<(), StepHalt>
    requires clauses_within { All IsWithinAssertion (assertions_of called.callee.now.postconditions.items) }
    requires args_within { All IsWithinValue args.items }
    requires returns_within { All IsWithinValue returns.items }
    requires before_within { IsWithinState (state_of before.now) }
    requires state_within { IsWithinState (state_of configuration.old.state) }
    requires choices_within { All IsWithinChoice (feed_of feed.old).left }
    ensures { Does (λ _. configuration_of configuration.new) (feed_of feed.old)
        (call_ended called.entry.at called.entry.targets.now (assertions_of called.entry.callee.now.postconditions.items) args.items returns.items (state_of before.now) (configuration_of configuration.old))
        (feed_of feed.new) result }
{
    args.extend_from_slice(&returns)?;
    let scene = SceneRef {
        store: &args,
        old: before,
        at: called.at,
    };
    let clauses = &called.callee.postconditions;
    produce_all(alloc, clauses, scene, &mut configuration.state, feed)?;
    configuration.store.set_all(called.targets, &returns);
    Ok(())
}

/// A call, once the values of its arguments are known.
pub fn call(
    alloc: Global,
    activation: Activation,
    called: Called,
    args: Vec<Value>,
    configuration: &mut Configuration,
    feed: &mut Feed,
) -> Result<(), StepHalt>
    requires callee_within { IsWithinMethod (method_of called.callee.now) }
    requires args_within { All IsWithinValue args.items }
    requires ready { IsReady (activation_of activation) (configuration_of configuration.old) (feed_of feed.old) }
    ensures { Does (λ _. configuration_of configuration.new) (feed_of feed.old)
        (m.called Bounded (activation_of activation.entry) called.entry.targets.now (method_of called.entry.callee.now) args.items called.entry.at (configuration_of configuration.old))
        (feed_of feed.new) result }
{
    let before = copy_state(alloc, &configuration.state)?;
    let scene = activation
        .scene(&configuration.store, called.at)
        .with_variables(&args);
    give_up(
        alloc,
        &called.callee.preconditions,
        &before,
        scene,
        &mut configuration.state,
        feed,
    )?;
    let returns = take_values(alloc, activation.vars, called.targets, feed)?;
    end_call(alloc, called, args, returns, &before, configuration, feed)
}
