// The statements in which no other statements stand.
ghost use Rattle.std.specs.Prelude.{None};
ghost use Rattle.std.specs.Option.{option_map};
ghost use Rattle.vb_base.specs.declared.places.Pos.{Pos as Place};
ghost use Rattle.vb_value.specs.Bound.{Bounded};
ghost use Rattle.viper_core.specs.Literals.{AreWithinExprs, IsWithinAssertion, IsWithinExpr};
ghost use Rattle.viper_core.specs.Stmt as s;
ghost use Rattle.viper_core.specs.View.{assertion_of, expr_of, exprs_of, fold_of};
ghost use Rattle.viper_state.specs.View.{feed_of};
ghost use Rattle.viper_meaning.specs.StatementLiterals.{IsWithinStmt};
ghost use Rattle.viper_meaning.specs.Statements as m;
ghost use Rattle.viper_inhale.specs.Answers.{Does};
ghost use Rattle.viper_run.specs.Ready.{IsReady};
ghost use Rattle.viper_run.specs.View.{activation_of, configuration_of};

use crate::activations::{Activation, Configuration};
use crate::calling::{self, Called, Invocation};
use crate::choices::{take_fresh, take_value_of};
use crate::objects::{AssignedField, create, is_fresh, write_field};
use std::alloc::Global;
use vb_base::Pos;
use vb_value::{Frac, Value};
use viper_core::{Assertion, Expr, FoldStmt};
use viper_eval::{assumed, eval_all, eval_in, found, reference_of};
use viper_fold::{fold_in, unfold_in};
use viper_inhale::{StepHalt, consume_in, forget_in, produce_in};
use viper_state::{Feed, copy_state};

/// `var x: T`
pub(crate) fn declare(
    activation: Activation,
    variable: u32,
    configuration: &mut Configuration,
    feed: &mut Feed,
) -> Result<(), StepHalt>
    ensures { (at : Place) → Does (λ _. configuration_of configuration.new) (feed_of feed.old)
        (m.run_stmt Bounded (activation_of activation.entry) (s.Var at variable None) (configuration_of configuration.old))
        (feed_of feed.new) result }
{
    let value = take_value_of(activation.vars, variable, feed)?;
    configuration.store.set(variable, value);
    Ok(())
}

/// `x := e`
pub(crate) fn assign(
    alloc: Global,
    activation: Activation,
    at: Pos,
    variable: u32,
    e: &Expr,
    configuration: &mut Configuration,
    feed: &mut Feed,
) -> Result<(), StepHalt>
    requires e_within { IsWithinExpr (expr_of e.now) }
    requires ready { IsReady (activation_of activation) (configuration_of configuration.old) (feed_of feed.old) }
    ensures { Does (λ _. configuration_of configuration.new) (feed_of feed.old)
        (m.run_stmt Bounded (activation_of activation.entry) (s.Assign at variable (expr_of e.now)) (configuration_of configuration.old))
        (feed_of feed.new) result }
{
    let scene = activation.scene(&configuration.store, at);
    let value = eval_in(alloc, e, &configuration.state, scene, feed)?;
    configuration.store.set(variable, value);
    Ok(())
}

/// `var x: T`, or `var x: T := e`
pub(crate) fn declare_variable(
    alloc: Global,
    activation: Activation,
    at: Pos,
    variable: u32,
    init: &Option<Expr>,
    configuration: &mut Configuration,
    feed: &mut Feed,
) -> Result<(), StepHalt>
    requires init_within { IsWithinStmt (s.Var at variable (option_map expr_of init.now)) }
    requires ready { IsReady (activation_of activation) (configuration_of configuration.old) (feed_of feed.old) }
    ensures { Does (λ _. configuration_of configuration.new) (feed_of feed.old)
        (m.run_stmt Bounded (activation_of activation.entry) (s.Var at variable (option_map expr_of init.now)) (configuration_of configuration.old))
        (feed_of feed.new) result }
{
    match init {
        None => declare(activation, variable, configuration, feed),
        Some(e) => assign(alloc, activation, at, variable, e, configuration, feed),
    }
}

/// `e.f := d`
pub(crate) fn write(
    alloc: Global,
    activation: Activation,
    at: Pos,
    place: AssignedField,
    d: &Expr,
    configuration: &mut Configuration,
    feed: &mut Feed,
) -> Result<(), StepHalt>
    requires receiver_within { IsWithinExpr (expr_of place.receiver.now) }
    requires d_within { IsWithinExpr (expr_of d.now) }
    requires ready { IsReady (activation_of activation) (configuration_of configuration.old) (feed_of feed.old) }
    ensures { Does (λ _. configuration_of configuration.new) (feed_of feed.old)
        (m.run_stmt Bounded (activation_of activation.entry) (s.Write at (expr_of place.entry.receiver.now) place.entry.field place.entry.at (expr_of d.now)) (configuration_of configuration.old))
        (feed_of feed.new) result }
{
    let scene = activation.scene(&configuration.store, at);
    let reference = reference_of(alloc, place.receiver, &configuration.state, scene, feed)?;
    let value = eval_in(alloc, d, &configuration.state, scene, feed)?;
    Ok(write_field(
        scene,
        &mut configuration.state,
        place.field,
        place.at,
        reference,
        value,
    )?)
}

/// `x := new(f, g)`
pub(crate) fn make_new(
    activation: Activation,
    variable: u32,
    fields: &[u32],
    refs: &[u32],
    configuration: &mut Configuration,
    feed: &mut Feed,
) -> Result<(), StepHalt>
    ensures { (at : Place) → Does (λ _. configuration_of configuration.new) (feed_of feed.old)
        (m.run_stmt Bounded (activation_of activation.entry) (s.New at variable fields.now refs.now) (configuration_of configuration.old))
        (feed_of feed.new) result }
{
    let reference = take_fresh(feed)?;
    assumed(is_fresh(reference, refs, configuration))?;
    let program = activation.program;
    create(
        &program.layout.fields,
        reference,
        fields,
        &mut configuration.state,
        feed,
    )?;
    configuration.store.set(variable, Value::Ref(reference));
    Ok(())
}

/// `x, y := m(a, b)`
pub(crate) fn call(
    alloc: Global,
    activation: Activation,
    at: Pos,
    targets: &[u32],
    invocation: Invocation,
    configuration: &mut Configuration,
    feed: &mut Feed,
) -> Result<(), StepHalt>
    requires args_within { AreWithinExprs (exprs_of invocation.args.now) }
    requires ready { IsReady (activation_of activation) (configuration_of configuration.old) (feed_of feed.old) }
    ensures { Does (λ _. configuration_of configuration.new) (feed_of feed.old)
        (m.run_stmt Bounded (activation_of activation.entry) (s.Call at targets.now invocation.entry.method (exprs_of invocation.entry.args.now)) (configuration_of configuration.old))
        (feed_of feed.new) result }
{
    let scene = activation.scene(&configuration.store, at);
    let args = eval_all(alloc, invocation.args, &configuration.state, scene, feed)?;
    let methods = &activation.program.methods;
    let callee = found(methods.get(invocation.method as usize))?;
    let called = Called {
        at,
        targets,
        callee,
    };
    calling::call(alloc, activation, called, args, configuration, feed)
}

/// `inhale A`
pub(crate) fn inhale(
    alloc: Global,
    activation: Activation,
    at: Pos,
    a: &Assertion,
    configuration: &mut Configuration,
    feed: &mut Feed,
) -> Result<(), StepHalt>
    requires a_within { IsWithinAssertion (assertion_of a.now) }
    requires ready { IsReady (activation_of activation) (configuration_of configuration.old) (feed_of feed.old) }
    ensures { Does (λ _. configuration_of configuration.new) (feed_of feed.old)
        (m.run_stmt Bounded (activation_of activation.entry) (s.Inhale at (assertion_of a.now)) (configuration_of configuration.old))
        (feed_of feed.new) result }
{
    let scene = activation.scene(&configuration.store, at);
    produce_in(
        alloc,
        a,
        &mut configuration.state,
        scene,
        Frac::write(),
        feed,
    )
}

/// `exhale A`
pub(crate) fn exhale(
    alloc: Global,
    activation: Activation,
    at: Pos,
    a: &Assertion,
    configuration: &mut Configuration,
    feed: &mut Feed,
) -> Result<(), StepHalt>
    requires a_within { IsWithinAssertion (assertion_of a.now) }
    requires ready { IsReady (activation_of activation) (configuration_of configuration.old) (feed_of feed.old) }
    ensures { Does (λ _. configuration_of configuration.new) (feed_of feed.old)
        (m.run_stmt Bounded (activation_of activation.entry) (s.Exhale at (assertion_of a.now)) (configuration_of configuration.old))
        (feed_of feed.new) result }
{
    let scene = activation.scene(&configuration.store, at);
    let start = copy_state(alloc, &configuration.state)?;
    consume_in(
        alloc,
        a,
        &start,
        &mut configuration.state,
        scene,
        Frac::write(),
        feed,
    )?;
    forget_in(alloc, &mut configuration.state, feed)
}

/// `assert A`
pub(crate) fn check(
    alloc: Global,
    activation: Activation,
    at: Pos,
    a: &Assertion,
    configuration: &Configuration,
    feed: &mut Feed,
) -> Result<(), StepHalt>
    requires a_within { IsWithinAssertion (assertion_of a.now) }
    requires ready { IsReady (activation_of activation) (configuration_of configuration.now) (feed_of feed.old) }
    ensures { Does (λ _. configuration_of configuration.now) (feed_of feed.old)
        (m.run_stmt Bounded (activation_of activation.entry) (s.Assert at (assertion_of a.now)) (configuration_of configuration.now))
        (feed_of feed.new) result }
{
    let scene = activation.scene(&configuration.store, at);
    let mut left = copy_state(alloc, &configuration.state)?;
    consume_in(
        alloc,
        a,
        &configuration.state,
        &mut left,
        scene,
        Frac::write(),
        feed,
    )
}

/// `fold acc(P(a), amount)`
pub(crate) fn fold(
    alloc: Global,
    activation: Activation,
    instance: &FoldStmt,
    configuration: &mut Configuration,
    feed: &mut Feed,
) -> Result<(), StepHalt>
    requires args_within { AreWithinExprs (fold_of instance.now).args }
    requires amount_within { IsWithinExpr (fold_of instance.now).amount }
    requires ready { IsReady (activation_of activation) (configuration_of configuration.old) (feed_of feed.old) }
    ensures { Does (λ _. configuration_of configuration.new) (feed_of feed.old)
        (m.run_stmt Bounded (activation_of activation.entry) (s.Fold (fold_of instance.now)) (configuration_of configuration.old))
        (feed_of feed.new) result }
{
    let scene = activation.scene(&configuration.store, instance.at);
    fold_in(
        alloc,
        activation.program,
        instance,
        &mut configuration.state,
        scene,
        feed,
    )
}

/// `unfold acc(P(a), amount)`
pub(crate) fn unfold(
    alloc: Global,
    activation: Activation,
    instance: &FoldStmt,
    configuration: &mut Configuration,
    feed: &mut Feed,
) -> Result<(), StepHalt>
    requires args_within { AreWithinExprs (fold_of instance.now).args }
    requires amount_within { IsWithinExpr (fold_of instance.now).amount }
    requires ready { IsReady (activation_of activation) (configuration_of configuration.old) (feed_of feed.old) }
    ensures { Does (λ _. configuration_of configuration.new) (feed_of feed.old)
        (m.run_stmt Bounded (activation_of activation.entry) (s.Unfold (fold_of instance.now)) (configuration_of configuration.old))
        (feed_of feed.new) result }
{
    let scene = activation.scene(&configuration.store, instance.at);
    unfold_in(
        alloc,
        activation.program,
        instance,
        &mut configuration.state,
        scene,
        feed,
    )
}
