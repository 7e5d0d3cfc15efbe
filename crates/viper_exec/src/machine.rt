// Executions of bodies, step by step.
ghost use Rattle.std.specs.Prelude.{◌+◌, ◌∷◌};
ghost use Rattle.vb_value.specs.Bound.{Bounded};
ghost use Rattle.viper_core.specs.Formed.{IsFormed};
ghost use Rattle.viper_core.specs.View.{body_of, method_of, program_of};
ghost use Rattle.viper_state.specs.View.{feed_of};
ghost use Rattle.viper_run.specs.Ready.{IsReady};
ghost use Rattle.viper_run.specs.View.{configuration_of};
ghost use Rattle.viper_exec_meaning.specs.Execution.{bodies_within};
ghost use Rattle.viper_exec.specs.Answers.{Advances, Executes, HasBegun, Steps};
ghost use Rattle.viper_exec.specs.Frames.{IsReadyFrame, IsReadyMachine, frame_steps, going, resume, steps_left};
ghost use Rattle.viper_exec.specs.Steps.{IsReadyBody, body_from, entry_of};
ghost use Rattle.viper_exec.specs.View.{frame_of, machine_of};

use crate::answers::Quit;
use crate::blocks::{assert_turn, step_block};
use crate::bodies::{end_body, return_to};
use crate::frames::{Frame, Machine, add_frame};
use std::alloc::Global;
use viper_core::{Body, Method, Program};
use viper_run::Configuration;
use viper_state::{Feed, copy_state};

/// The step of a frame that was on top.
fn step<'a>(
    alloc: Global,
    machine: &mut Machine<'a>,
    frame: Frame<'a>,
    budget: &mut u64,
    feed: &mut Feed,
) -> Result<(), Quit>
    requires frame_ready { IsReadyFrame (frame_of frame) }
    requires ready { IsReadyMachine (machine_of machine.old) (feed_of feed.old) }
    ensures { Steps (feed_of feed.old) budget.old
        (λ n. resume (frame_of frame.entry ∷ (machine_of machine.old).frames) (machine_of machine.old).activation n (machine_of machine.old).configuration)
        (frame_steps (frame_of frame.entry) + steps_left (machine_of machine.old).frames) (feed_of feed.new) budget.new (machine_of machine.new) result }
{
    match frame {
        Frame::Block(stmts) => step_block(alloc, machine, stmts, budget, feed),
        Frame::Turn(turns) => assert_turn(alloc, machine, turns, turns.turn, budget, feed),
        Frame::End(method, turn) => end_body(alloc, machine, method, turn, feed),
        Frame::Return(caller) => {
            return_to(machine, Box::into_inner(caller));
            Ok(())
        }
    }
}

/// Steps up to one in which a turn or a body begins. Whether there was one; else nothing is left to be done.
fn advance(
    alloc: Global,
    machine: &mut Machine,
    budget: &mut u64,
    feed: &mut Feed,
) -> Result<bool, Quit>
    requires ready { IsReadyMachine (machine_of machine.old) (feed_of feed.old) }
    ensures { Advances (feed_of feed.old) budget.old (going (machine_of machine.old)) (feed_of feed.new) budget.new (machine_of machine.new)
        (HasBegun budget.old budget.new (machine_of machine.new)) result }
{
    let before = *budget;
    while let Some(frame) = machine.frames.pop() {
        step(alloc, machine, frame, budget, feed)?;
        if *budget < before {
            return Ok(true);
        }
    }
    Ok(false)
}

/// Steps until nothing is left to be done.
fn run(alloc: Global, machine: &mut Machine, budget: &mut u64, feed: &mut Feed) -> Result<(), Quit>
    requires ready { IsReadyMachine (machine_of machine.old) (feed_of feed.old) }
    ensures { Executes (λ _. (machine_of machine.new).configuration) (feed_of feed.old) budget.old (going (machine_of machine.old)) (feed_of feed.new) budget.new result }
{
    'running: while advance(alloc, machine, budget, feed)? {}
    Ok(())
}

/// Executes the body of a method, from this configuration. The state in which it begins is its old state, and at its end the
/// postcondition is asserted.
pub(crate) fn exec_body(
    alloc: Global,
    program: &Program,
    method: &Method,
    body: &Body,
    configuration: Configuration,
    budget: &mut u64,
    feed: &mut Feed,
) -> Result<Configuration, Quit>
    requires formed { IsFormed (program_of program.now) }
    requires body { IsReadyBody (program_of program.now) (method_of method.now) (body_of body.now) }
    requires ready { IsReady (entry_of (program_of program.now) (method_of method.now) (configuration_of configuration)) (configuration_of configuration) (feed_of feed.old) }
    ensures { Executes configuration_of (feed_of feed.old) budget.old
        (λ n. body_from (bodies_within Bounded (program_of program.now) n) (program_of program.now) (method_of method.now) (body_of body.now) n (configuration_of configuration))
        (feed_of feed.new) budget.new result }
{
    let start = copy_state(alloc, &configuration.state)?;
    let mut machine = Machine {
        program,
        vars: &method.vars,
        start,
        configuration,
        frames: Vec::new(alloc),
    };
    add_frame(&mut machine.frames, Frame::End(method, body.turn))?;
    add_frame(&mut machine.frames, Frame::Block(&body.stmts))?;
    run(alloc, &mut machine, budget, feed)?;
    Ok(machine.configuration)
}
