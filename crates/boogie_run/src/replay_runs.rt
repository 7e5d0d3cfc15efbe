// Statements and blocks.
#![tactic(auto, using(crate::specs::Runs::done, crate::specs::Runs::stops, crate::specs::Runs::no_memory))]

ghost use Rattle.std.specs.Prelude.{◌≡◌};
ghost use Rattle.vb_value.specs.Bound.{Bounded};
ghost use Rattle.boogie_tree.specs.Whole.{stmt_of, stmts_of};
ghost use Rattle.boogie_meaning.specs.Run.{brun, brun_stmt};
ghost use Rattle.boogie_run.specs.Ready.{IsReady};
ghost use Rattle.boogie_run.specs.Runs.{Runs};
ghost use Rattle.boogie_types.specs.Typed.{types_in};
ghost use Rattle.boogie_run.specs.View.{environment_of, left_in};
ghost use Rattle.boogie_eval.specs.Within.{IsWithinStmt, AreWithinStmts};

use crate::replay_choices::{BoogieFeed, take_branch};
use crate::replay_ends::ReplayHalt;
use crate::replay_steps::{assign, assume, check, condition, havoc, put};
use crate::replay_values::Environment;
use boogie_tree::{BStmt, Local};
use std::alloc::Global;

/// Runs a statement.
#[cycle(running)]
pub(crate) fn run_stmt(
    alloc: Global,
    locals: &[Local],
    stmt: &BStmt,
    env: &mut Environment,
    feed: &mut BoogieFeed,
) -> Result<(), ReplayHalt>
    requires stmt_within { IsWithinStmt (stmt_of stmt.now) }
    requires ready { IsReady (environment_of env.old) (left_in feed.old) }
    ensures { Runs (brun_stmt (types_in locals.now) Bounded (stmt_of stmt.now) (environment_of env.old) (left_in feed.old))
        (environment_of env.new) (left_in feed.new) result }
{
    match stmt {
        BStmt::Assign(number, e) => assign(alloc, *number, e, env),
        BStmt::Put(number, es, e) => put(alloc, *number, es, e, env),
        BStmt::Havoc(number) => havoc(alloc, locals, *number, env, feed),
        BStmt::Assume(e) => assume(alloc, e, &env.values),
        BStmt::Assert(label, e) => check(alloc, *label, e, &env.values),
        BStmt::If(e, xs, ys) => {
            if condition(alloc, e, &env.values)? {
                run_block(alloc, locals, xs, env, feed)
            } else {
                run_block(alloc, locals, ys, env, feed)
            }
        }
        BStmt::Either(xs, ys) => {
            if take_branch(feed)? {
                run_block(alloc, locals, xs, env, feed)
            } else {
                run_block(alloc, locals, ys, env, feed)
            }
        }
    }
}

/// Runs the statements of a block, one after the other.
#[cycle(running)]
pub(crate) fn run_block(
    alloc: Global,
    locals: &[Local],
    stmts: &[BStmt],
    env: &mut Environment,
    feed: &mut BoogieFeed,
) -> Result<(), ReplayHalt>
    requires stmts_within { AreWithinStmts (stmts_of stmts.now) }
    requires ready { IsReady (environment_of env.old) (left_in feed.old) }
    ensures { Runs (brun (types_in locals.now) Bounded (stmts_of stmts.now) (environment_of env.old) (left_in feed.old))
        (environment_of env.new) (left_in feed.new) result }
{
    for stmt in stmts {
        run_stmt(alloc, locals, stmt, env, feed)?;
    }
    Ok(())
}
