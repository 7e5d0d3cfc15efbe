// Steps of statements, blocks and loops.
ghost use Rattle.std.specs.Prelude.{◌≡◌, ◌+◌, ◌∷◌, if◌then◌else◌};
ghost use Rattle.viper_core.specs.Stmt as s;
ghost use Rattle.viper_core.specs.View.{expr_of, loop_of, stmt_of, stmts_of};
ghost use Rattle.viper_state.specs.View.{feed_of};
ghost use Rattle.viper_meaning.specs.StatementLiterals.{AreWithinStmts, IsWithinStmt};
ghost use Rattle.viper_exec.specs.Answers.{Steps, StepsFree};
ghost use Rattle.viper_exec.specs.Frames.{Block, IsReadyMachine, doing, doing_plain, resume, steps_in, steps_left, steps_of, turning, turning_from};
ghost use Rattle.viper_exec.specs.View.{machine_of};

use crate::answers::{Quit, begin};
use crate::bodies::step_call;
use crate::calls::assert_all;
use crate::frames::{Frame, Machine, add_frame};
use std::alloc::Global;
use vb_base::Pos;
use viper_core::{Expr, Loop, Stmt};
use viper_eval::truth_of;
use viper_run::{Activation, Invocation, run_stmt};
use viper_state::Feed;

/// The first statement of a block is begun.
pub(crate) fn step_block<'a>(
    alloc: Global,
    machine: &mut Machine<'a>,
    stmts: &'a [Stmt],
    budget: &mut u64,
    feed: &mut Feed,
) -> Result<(), Quit>
    requires stmts_within { AreWithinStmts (stmts_of stmts.now) }
    requires ready { IsReadyMachine (machine_of machine.old) (feed_of feed.old) }
    ensures { Steps (feed_of feed.old) budget.old
        (λ n. resume (Block (stmts_of stmts.now) ∷ (machine_of machine.old).frames) (machine_of machine.old).activation n (machine_of machine.old).configuration)
        (1 + steps_in (stmts_of stmts.now) + steps_left (machine_of machine.old).frames) (feed_of feed.new) budget.new (machine_of machine.new) result }
{
    let Some((stmt, rest)) = stmts.split_first() else {
        return Ok(());
    };
    add_frame(&mut machine.frames, Frame::Block(rest))?;
    step_stmt(alloc, machine, stmt, budget, feed)
}

/// A statement is begun.
fn step_stmt<'a>(
    alloc: Global,
    machine: &mut Machine<'a>,
    stmt: &'a Stmt,
    budget: &mut u64,
    feed: &mut Feed,
) -> Result<(), Quit>
    requires stmt_within { IsWithinStmt (stmt_of stmt.now) }
    requires ready { IsReadyMachine (machine_of machine.old) (feed_of feed.old) }
    ensures { Steps (feed_of feed.old) budget.old (doing (machine_of machine.old) (stmt_of stmt.now))
        (steps_of (stmt_of stmt.now) + steps_left (machine_of machine.old).frames) (feed_of feed.new) budget.new (machine_of machine.new) result }
{
    match stmt {
        Stmt::Call(at, targets, method, args) => {
            let method = *method;
            let invocation = Invocation { method, args };
            step_call(alloc, machine, *at, targets, invocation, budget, feed)
        }
        Stmt::If(at, e, a, b) => step_if(alloc, machine, *at, e, a, b, feed),
        Stmt::While(turns) => assert_turn(alloc, machine, turns, turns.at, budget, feed),
        _ => step_other(alloc, machine, stmt, feed),
    }
}

/// A statement in which nothing begins is run.
fn step_other(
    alloc: Global,
    machine: &mut Machine,
    stmt: &Stmt,
    feed: &mut Feed,
) -> Result<(), Quit>
    requires stmt_within { IsWithinStmt (stmt_of stmt.now) }
    requires ready { IsReadyMachine (machine_of machine.old) (feed_of feed.old) }
    ensures { StepsFree (feed_of feed.old) (doing_plain (machine_of machine.old) (stmt_of stmt.now))
        (1 + steps_left (machine_of machine.old).frames) (feed_of feed.new) (machine_of machine.new) result }
{
    let activation = Activation {
        program: machine.program,
        vars: machine.vars,
        old: &machine.start,
    };
    Ok(run_stmt(alloc, activation, stmt, &mut machine.configuration, feed)?)
}

/// The first block is begun where the condition holds, and else the second.
fn step_if<'a>(
    alloc: Global,
    machine: &mut Machine<'a>,
    at: Pos,
    e: &Expr,
    first: &'a [Stmt],
    second: &'a [Stmt],
    feed: &mut Feed,
) -> Result<(), Quit>
    requires if_within { IsWithinStmt (s.If at (expr_of e.now) (stmts_of first.now) (stmts_of second.now)) }
    requires ready { IsReadyMachine (machine_of machine.old) (feed_of feed.old) }
    ensures { StepsFree (feed_of feed.old) (doing (machine_of machine.old) (s.If at (expr_of e.now) (stmts_of first.now) (stmts_of second.now)))
        (2 + steps_in (stmts_of first.now) + steps_in (stmts_of second.now) + steps_left (machine_of machine.old).frames)
        (feed_of feed.new) (machine_of machine.new) result }
{
    let state = &machine.configuration.state;
    let holds = truth_of(alloc, e, state, machine.scene(at), feed)?;
    let block = chosen(holds, first, second);
    Ok(add_frame(&mut machine.frames, Frame::Block(block))?)
}

/// One of two blocks.
fn chosen<'a>(holds: bool, first: &'a [Stmt], second: &'a [Stmt]) -> &'a [Stmt]
    ensures { stmts_of result.now ≡ (if holds then stmts_of first.now else stmts_of second.now) }
{
    if holds { first } else { second }
}

/// The invariants of a loop are asserted by the step at this place, before the loop or at the end of a turn, and a turn is begun
/// where the guard holds.
pub(crate) fn assert_turn<'a>(
    alloc: Global,
    machine: &mut Machine<'a>,
    turns: &'a Loop,
    at: Pos,
    budget: &mut u64,
    feed: &mut Feed,
) -> Result<(), Quit>
    requires turns_within { IsWithinStmt (s.While (loop_of turns.now)) }
    requires ready { IsReadyMachine (machine_of machine.old) (feed_of feed.old) }
    ensures { Steps (feed_of feed.old) budget.old (turning_from (machine_of machine.old) at (loop_of turns.now))
        (1 + steps_left (machine_of machine.old).frames) (feed_of feed.new) budget.new (machine_of machine.new) result }
{
    let state = &machine.configuration.state;
    let scene = machine.scene(at);
    assert_all(alloc, &turns.invariants, state, scene, feed)?;
    begin_turn(alloc, machine, turns, budget, feed)
}

/// A turn is begun where the guard holds.
fn begin_turn<'a>(
    alloc: Global,
    machine: &mut Machine<'a>,
    turns: &'a Loop,
    budget: &mut u64,
    feed: &mut Feed,
) -> Result<(), Quit>
    requires turns_within { IsWithinStmt (s.While (loop_of turns.now)) }
    requires ready { IsReadyMachine (machine_of machine.old) (feed_of feed.old) }
    ensures { Steps (feed_of feed.old) budget.old (turning (machine_of machine.old) (loop_of turns.now))
        (1 + steps_left (machine_of machine.old).frames) (feed_of feed.new) budget.new (machine_of machine.new) result }
{
    let state = &machine.configuration.state;
    let scene = machine.scene(turns.at);
    if truth_of(alloc, &turns.guard, state, scene, feed)? {
        begin(budget)?;
        add_frame(&mut machine.frames, Frame::Turn(turns))?;
        Ok(add_frame(&mut machine.frames, Frame::Block(&turns.body))?)
    } else {
        Ok(())
    }
}
