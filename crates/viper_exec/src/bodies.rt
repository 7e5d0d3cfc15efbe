// Steps of calls and of the bodies that are called.
ghost use Rattle.std.specs.Prelude.{◌≡◌, ◌+◌, ◌∷◌, All};
ghost use Rattle.vb_value.specs.Value.{IsWithinValue};
ghost use Rattle.viper_core.specs.Literals.{AreWithinExprs};
ghost use Rattle.viper_core.specs.Stmt as s;
ghost use Rattle.viper_core.specs.View.{body_of, exprs_of, method_of};
ghost use Rattle.viper_state.specs.View.{feed_of};
ghost use Rattle.viper_meaning.specs.StatementLiterals.{IsWithinMethod};
ghost use Rattle.viper_exec.specs.Answers.{Steps, StepsFree};
ghost use Rattle.viper_exec.specs.Frames.{End, IsReadyMachine, calling, calling_bare, doing, resume, returned_to, steps_left};
ghost use Rattle.viper_exec.specs.Steps.{IsReadyBody};
ghost use Rattle.viper_exec.specs.View.{caller_of, machine_of};

use crate::answers::{Quit, begin};
use crate::calls::{assert_all, begin_call, give_returns};
use crate::frames::{Caller, Frame, Machine, add_caller, add_frame};
use std::alloc::Global;
use std::mem;
use vb_base::Pos;
use vb_value::Value;
use viper_core::{Body, Method};
use viper_eval::{eval_all, found};
use viper_run::{Activation, Called, Invocation, call, first_store};
use viper_state::{Feed, copy_state};

/// A call is begun. Where the method has no body, the call stands for what its contract allows.
pub(crate) fn step_call<'a>(
    alloc: Global,
    machine: &mut Machine<'a>,
    at: Pos,
    targets: &'a [u32],
    invocation: Invocation,
    budget: &mut u64,
    feed: &mut Feed,
) -> Result<(), Quit>
    requires args_within { AreWithinExprs (exprs_of invocation.args.now) }
    requires ready { IsReadyMachine (machine_of machine.old) (feed_of feed.old) }
    ensures { Steps (feed_of feed.old) budget.old (doing (machine_of machine.old) (s.Call at targets.now invocation.entry.method (exprs_of invocation.entry.args.now)))
        (1 + steps_left (machine_of machine.old).frames) (feed_of feed.new) budget.new (machine_of machine.new) result }
{
    let state = &machine.configuration.state;
    let args = eval_all(alloc, invocation.args, state, machine.scene(at), feed)?;
    let program = machine.program;
    let callee = found(program.methods.get(invocation.method as usize))?;
    let called = Called {
        at,
        targets,
        callee,
    };
    match &callee.body {
        Some(body) => begin_body(alloc, machine, called, body, args, budget, feed),
        None => call_bare(alloc, machine, called, args, feed),
    }
}

/// A method without a body is called.
fn call_bare(
    alloc: Global,
    machine: &mut Machine,
    called: Called,
    args: Vec<Value>,
    feed: &mut Feed,
) -> Result<(), Quit>
    requires callee_within { IsWithinMethod (method_of called.callee.now) }
    requires args_within { All IsWithinValue args.items }
    requires ready { IsReadyMachine (machine_of machine.old) (feed_of feed.old) }
    ensures { StepsFree (feed_of feed.old) (calling_bare (machine_of machine.old) called.entry.at called.entry.targets.now (method_of called.entry.callee.now) args.items)
        (1 + steps_left (machine_of machine.old).frames) (feed_of feed.new) (machine_of machine.new) result }
{
    let activation = Activation {
        program: machine.program,
        vars: machine.vars,
        old: &machine.start,
    };
    let configuration = &mut machine.configuration;
    Ok(call(alloc, activation, called, args, configuration, feed)?)
}

/// The body of a method that is called is begun: it runs on the state, with a store of its own.
fn begin_body<'a>(
    alloc: Global,
    machine: &mut Machine<'a>,
    called: Called<'a>,
    body: &'a Body,
    args: Vec<Value>,
    budget: &mut u64,
    feed: &mut Feed,
) -> Result<(), Quit>
    requires callee { IsReadyBody (machine_of machine.old).activation.program (method_of called.callee.now) (body_of body.now) }
    requires args_within { All IsWithinValue args.items }
    requires ready { IsReadyMachine (machine_of machine.old) (feed_of feed.old) }
    ensures { Steps (feed_of feed.old) budget.old (calling (machine_of machine.old) called.entry.at called.entry.targets.now (method_of called.entry.callee.now) (body_of body.now) args.items)
        (1 + steps_left (machine_of machine.old).frames) (feed_of feed.new) budget.new (machine_of machine.new) result }
{
    let activation = Activation {
        program: machine.program,
        vars: machine.vars,
        old: &machine.start,
    };
    let Called {
        at,
        targets,
        callee,
    } = called;
    let configuration = &machine.configuration;
    let given = begin_call(alloc, activation, at, callee, args, configuration, feed)?;
    begin(budget)?;
    let store = first_store(alloc, callee, &given)?;
    let start = copy_state(alloc, &machine.configuration.state)?;
    let caller = Caller {
        callee,
        targets,
        vars: machine.vars,
        start: mem::replace(&mut machine.start, start),
        store: mem::replace(&mut machine.configuration.store, store),
    };
    machine.vars = &callee.vars;
    add_caller(alloc, &mut machine.frames, caller)?;
    add_frame(&mut machine.frames, Frame::End(callee, body.turn))?;
    Ok(add_frame(&mut machine.frames, Frame::Block(&body.stmts))?)
}

/// The end of a body: the postconditions of its method are asserted.
pub(crate) fn end_body(
    alloc: Global,
    machine: &mut Machine,
    method: &Method,
    turn: Pos,
    feed: &mut Feed,
) -> Result<(), Quit>
    requires method_within { IsWithinMethod (method_of method.now) }
    requires ready { IsReadyMachine (machine_of machine.old) (feed_of feed.old) }
    ensures { StepsFree (feed_of feed.old)
        (λ n. resume (End (method_of method.now) turn ∷ (machine_of machine.old).frames) (machine_of machine.old).activation n (machine_of machine.old).configuration)
        (1 + steps_left (machine_of machine.old).frames) (feed_of feed.new) (machine_of machine.new) result }
{
    let state = &machine.configuration.state;
    Ok(assert_all(
        alloc,
        &method.postconditions,
        state,
        machine.scene(turn),
        feed,
    )?)
}

/// The caller continues, and its targets take the values of the returns.
pub(crate) fn return_to<'a>(machine: &mut Machine<'a>, caller: Caller<'a>)
    ensures { machine_of machine.new ≡ returned_to (machine_of machine.old) (caller_of caller.entry) }
{
    let Caller {
        callee,
        targets,
        vars,
        start,
        store,
    } = caller;
    let last = mem::replace(&mut machine.configuration.store, store);
    give_returns(
        callee,
        &last.values,
        targets,
        &mut machine.configuration.store,
    );
    machine.vars = vars;
    machine.start = start;
}
