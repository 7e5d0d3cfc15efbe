// What a call does besides running the body that is called.
ghost use Rattle.std.specs.Prelude.{⊤, ◌≡◌, ◌+◌, ◌<◌, ◌^◌, ◌++◌, All, IfOk};
ghost use Rattle.vb_value.specs.Bound.{Bounded};
ghost use Rattle.vb_value.specs.Value.{IsWithinValue};
ghost use Rattle.viper_core.specs.Literals.{IsWithinAssertion};
ghost use Rattle.viper_core.specs.View.{assertions_of, method_of};
ghost use Rattle.viper_state.specs.Run.{with_variables};
ghost use Rattle.viper_state.specs.View.{feed_of, state_of};
ghost use Rattle.viper_state.specs.Within.{IsWithinScene, IsWithinState};
ghost use Rattle.viper_meaning.specs.Run as run;
ghost use Rattle.viper_meaning.specs.Statements as m;
ghost use Rattle.viper_eval.specs.View.{lent};
ghost use Rattle.viper_inhale.specs.Answers.{Does};
ghost use Rattle.viper_run.specs.Ready.{IsReady};
ghost use Rattle.viper_run.specs.View.{activation_of, configuration_of};
ghost use Rattle.viper_exec_meaning.specs.Execution as meaning;
ghost use Rattle.viper_exec.specs.Steps.{asserted, call_begun, returns_taken};

use std::alloc::Global;
use vb_base::{Memory, Pos};
use vb_value::Value;
use viper_core::{Assertion, Method};
use viper_eval::SceneRef;
use viper_inhale::StepHalt;
use viper_run::{Activation, Configuration, Store, consume_all, take_values};
use viper_state::{Feed, State, copy_state};

/// Asserts clauses: they are consumed from a copy, and the state stays as it was.
pub(crate) fn assert_all(
    alloc: Global,
    clauses: &[Assertion],
    state: &State,
    scene: SceneRef,
    feed: &mut Feed,
) -> Result<(), StepHalt>
    requires clauses_within { All IsWithinAssertion (assertions_of clauses.now) }
    requires state_within { IsWithinState (state_of state.now) }
    requires scene_within { IsWithinScene (lent scene) }
    ensures { Does (λ x. x) (feed_of feed.old)
        (asserted (assertions_of clauses.now) (state_of state.now) (lent scene.entry)) (feed_of feed.new) result }
{
    let mut left = copy_state(alloc, state)?;
    consume_all(alloc, clauses, state, scene, &mut left, feed)
}

/// The numbers of the returns of a method.
fn returns_in(alloc: Global, method: &Method) -> Result<Vec<u32>, Memory>
    requires few { method.now.params + method.now.returns < 2 ^ 32 }
    ensures { IfOk result (λ xs. xs.items ≡ meaning.returns_in (method_of method.now)) }
{
    let mut numbers = Vec::with_capacity(alloc, method.returns as usize)?;
    for number in method.params..method.params + method.returns {
        numbers.push(number)?;
    }
    Ok(numbers)
}

/// The values of the parameters, and after them a value for each return, which is taken.
fn take_returns(
    alloc: Global,
    method: &Method,
    mut given: Vec<Value>,
    feed: &mut Feed,
) -> Result<Vec<Value>, StepHalt>
    requires few { method.now.params + method.now.returns < 2 ^ 32 }
    ensures { Does (λ vs. vs.items) (feed_of feed.old) (returns_taken (method_of method.now) given.items) (feed_of feed.new) result }
{
    let returns = returns_in(alloc, method)?;
    let values = take_values(alloc, &method.vars, &returns, feed)?;
    given.extend_from_slice(&values)?;
    Ok(given)
}

/// The precondition of a method that is called is asserted, and its returns take values. With those of the parameters, its
/// body begins.
pub(crate) fn begin_call(
    alloc: Global,
    activation: Activation,
    at: Pos,
    method: &Method,
    args: Vec<Value>,
    configuration: &Configuration,
    feed: &mut Feed,
) -> Result<Vec<Value>, StepHalt>
    requires preconditions_within { All IsWithinAssertion (method_of method.now).preconditions }
    requires few { method.now.params + method.now.returns < 2 ^ 32 }
    requires args_within { All IsWithinValue args.items }
    requires ready { IsReady (activation_of activation) (configuration_of configuration.now) (feed_of feed.old) }
    ensures { Does (λ vs. vs.items) (feed_of feed.old)
        (call_begun (method_of method.now) args.items (with_variables args.items (m.scene (activation_of activation.entry) (configuration_of configuration.now) at)) (state_of configuration.now.state))
        (feed_of feed.new) result }
{
    let scene = activation
        .scene(&configuration.store, at)
        .with_variables(&args);
    assert_all(
        alloc,
        &method.preconditions,
        &configuration.state,
        scene,
        feed,
    )?;
    take_returns(alloc, method, args, feed)
}

/// The targets take the values of the returns of a method, in its store.
pub(crate) fn give_returns(method: &Method, values: &[Value], targets: &[u32], store: &mut Store)
    ensures { store.new.values.items ≡ m.stored store.old.values.items targets.now (meaning.returned (method_of method.now) values.now) }
{
    let from = values.len().min(method.params as usize);
    let to = values.len().min(from + method.returns as usize);
    store.set_all(targets, &values[from..to]);
}
