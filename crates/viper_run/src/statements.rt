// Statements, blocks and loops.
ghost use Rattle.vb_value.specs.Bound.{Bounded};
ghost use Rattle.viper_core.specs.Stmt as s;
ghost use Rattle.viper_core.specs.View.{assertions_of, expr_of, loop_of, stmt_of, stmts_of};
ghost use Rattle.viper_state.specs.View.{feed_of};
ghost use Rattle.viper_meaning.specs.StatementLiterals.{AreWithinStmts, IsWithinStmt};
ghost use Rattle.viper_meaning.specs.Statements as m;
ghost use Rattle.viper_inhale.specs.Answers.{Does};
ghost use Rattle.viper_run.specs.Ready.{IsReady};
ghost use Rattle.viper_run.specs.View.{activation_of, configuration_of};

use crate::activations::{Activation, Configuration};
use crate::calling::Invocation;
use crate::choices::take_branch;
use crate::loops::{assume_guard, begin_turn, end_turn, enter_loop};
use crate::objects::AssignedField;
use crate::steps;
use std::alloc::Global;
use vb_base::Pos;
use viper_core::{Expr, Loop, Stmt};
use viper_eval::truth_of;
use viper_inhale::StepHalt;
use viper_state::Feed;

/// The two blocks of an `if`.
#[derive(Clone, Copy)]
struct Blocks<'a> {
    first: &'a [Stmt],
    second: &'a [Stmt],
}

/// Runs a statement.
#[cycle(running)]
pub fn run_stmt(
    alloc: Global,
    activation: Activation,
    stmt: &Stmt,
    configuration: &mut Configuration,
    feed: &mut Feed,
) -> Result<(), StepHalt>
    requires stmt_within { IsWithinStmt (stmt_of stmt.now) }
    requires ready { IsReady (activation_of activation) (configuration_of configuration.old) (feed_of feed.old) }
    ensures { Does (λ _. configuration_of configuration.new) (feed_of feed.old)
        (m.run_stmt Bounded (activation_of activation.entry) (stmt_of stmt.now) (configuration_of configuration.old)) (feed_of feed.new) result }
{
    match stmt {
        Stmt::Var(at, x, init) => {
            steps::declare_variable(alloc, activation, *at, *x, init, configuration, feed)
        }
        Stmt::Assign(at, x, e) => steps::assign(alloc, activation, *at, *x, e, configuration, feed),
        Stmt::Write(at, receiver, field, name, d) => {
            let place = AssignedField {
                receiver,
                field: *field,
                at: *name,
            };
            steps::write(alloc, activation, *at, place, d, configuration, feed)
        }
        Stmt::New(_, x, fields, refs) => {
            steps::make_new(activation, *x, fields, refs, configuration, feed)
        }
        Stmt::Call(at, targets, method, args) => {
            let method = *method;
            let invocation = Invocation { method, args };
            steps::call(
                alloc,
                activation,
                *at,
                targets,
                invocation,
                configuration,
                feed,
            )
        }
        Stmt::Inhale(at, a) => steps::inhale(alloc, activation, *at, a, configuration, feed),
        Stmt::Exhale(at, a) => steps::exhale(alloc, activation, *at, a, configuration, feed),
        Stmt::Assert(at, a) => steps::check(alloc, activation, *at, a, configuration, feed),
        Stmt::Fold(instance) => steps::fold(alloc, activation, instance, configuration, feed),
        Stmt::Unfold(instance) => steps::unfold(alloc, activation, instance, configuration, feed),
        Stmt::If(at, e, first, second) => {
            let blocks = Blocks { first, second };
            run_if(alloc, activation, *at, e, blocks, configuration, feed)
        }
        Stmt::While(turns) => run_loop(alloc, activation, turns, configuration, feed),
    }
}

/// Runs the first block where the condition holds, and else the second.
#[cycle(running)]
fn run_if(
    alloc: Global,
    activation: Activation,
    at: Pos,
    e: &Expr,
    blocks: Blocks,
    configuration: &mut Configuration,
    feed: &mut Feed,
) -> Result<(), StepHalt>
    requires if_within { IsWithinStmt (s.If at (expr_of e.now) (stmts_of blocks.first.now) (stmts_of blocks.second.now)) }
    requires ready { IsReady (activation_of activation) (configuration_of configuration.old) (feed_of feed.old) }
    ensures { Does (λ _. configuration_of configuration.new) (feed_of feed.old)
        (m.run_stmt Bounded (activation_of activation.entry) (s.If at (expr_of e.now) (stmts_of blocks.entry.first.now) (stmts_of blocks.entry.second.now)) (configuration_of configuration.old))
        (feed_of feed.new) result }
{
    let scene = activation.scene(&configuration.store, at);
    if truth_of(alloc, e, &configuration.state, scene, feed)? {
        run_block(alloc, activation, blocks.first, configuration, feed)
    } else {
        run_block(alloc, activation, blocks.second, configuration, feed)
    }
}

/// Runs the statements of a block, one after the other.
#[cycle(running)]
pub(crate) fn run_block(
    alloc: Global,
    activation: Activation,
    stmts: &[Stmt],
    configuration: &mut Configuration,
    feed: &mut Feed,
) -> Result<(), StepHalt>
    requires stmts_within { AreWithinStmts (stmts_of stmts.now) }
    requires ready { IsReady (activation_of activation) (configuration_of configuration.old) (feed_of feed.old) }
    ensures { Does (λ _. configuration_of configuration.new) (feed_of feed.old)
        (m.run_block Bounded (activation_of activation.entry) (stmts_of stmts.now) (configuration_of configuration.old)) (feed_of feed.new) result }
{
    for stmt in stmts {
        run_stmt(alloc, activation, stmt, configuration, feed)?;
    }
    Ok(())
}

/// Runs a loop: it makes one arbitrary turn, or continues after the loop.
#[cycle(running)]
fn run_loop(
    alloc: Global,
    activation: Activation,
    turns: &Loop,
    configuration: &mut Configuration,
    feed: &mut Feed,
) -> Result<(), StepHalt>
    requires turns_within { IsWithinStmt (s.While (loop_of turns.now)) }
    requires ready { IsReady (activation_of activation) (configuration_of configuration.old) (feed_of feed.old) }
    ensures { Does (λ _. configuration_of configuration.new) (feed_of feed.old)
        (m.run_stmt Bounded (activation_of activation.entry) (s.While (loop_of turns.now)) (configuration_of configuration.old)) (feed_of feed.new) result }
{
    enter_loop(alloc, activation, turns, configuration, feed)?;
    if take_branch(feed)? {
        run_turn(alloc, activation, turns, configuration, feed)
    } else {
        assume_guard(alloc, activation, turns, false, configuration, feed)
    }
}

/// Runs a turn of a loop for its failures alone.
#[cycle(running)]
fn run_turn(
    alloc: Global,
    activation: Activation,
    turns: &Loop,
    configuration: &mut Configuration,
    feed: &mut Feed,
) -> Result<(), StepHalt>
    requires turns_within { IsWithinStmt (s.While (loop_of turns.now)) }
    requires ready { IsReady (activation_of activation) (configuration_of configuration.old) (feed_of feed.old) }
    ensures { Does (λ _. configuration_of configuration.new) (feed_of feed.old)
        (m.in_vain (m.run_turn Bounded (activation_of activation.entry) turns.now.at (expr_of turns.now.guard) (assertions_of turns.now.invariants.items)
        (λ d. m.run_block Bounded (activation_of activation.entry) (stmts_of turns.now.body.items) d) turns.now.turn (configuration_of configuration.old)))
        (feed_of feed.new) result }
{
    begin_turn(alloc, activation, turns, configuration, feed)?;
    run_block(alloc, activation, &turns.body, configuration, feed)?;
    end_turn(alloc, activation, turns, configuration, feed)
}
