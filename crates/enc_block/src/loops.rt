// The parts of a loop, around its body.
ghost use Rattle.std.specs.Prelude.{◌≡◌, length, None, OnOk};
ghost use Rattle.viper_core.specs.View.{assertions_of, expr_of as viper};
ghost use Rattle.boogie_tree.specs.Expr as t;
ghost use Rattle.boogie_tree.specs.Stmt as s;
ghost use Rattle.boogie_tree.specs.Whole.{expr_of};
ghost use Rattle.enc_expr.specs.Code.{puts};
ghost use Rattle.enc_expr.specs.Emits.{emit_of, Emits};
ghost use Rattle.enc_expr.specs.Pieces as piece;
ghost use Rattle.enc_expr.specs.View.{kinds_of};
ghost use Rattle.enc_block.specs.Encoding as code;
ghost use Rattle.enc_block.specs.Parts as part;
ghost use Rattle.enc_block.specs.View.{home_of};

use crate::clauses::{assert_all, exhale_all, produce_all};
use crate::homes::Setting;
use crate::states::{any_state, havoc, stop};
use boogie_tree::{BExpr, BStmt};
use enc_expr::{Emit, check};
use std::alloc::Global;
use vb_base::{Memory, Pos};
use viper_core::{Expr, Loop};

/// The condition is assumed.
fn assume(alloc: Global, condition: BExpr, out: &mut Emit) -> Result<(), Memory>
    ensures { OnOk result (Emits (puts None (piece.one (s.Assume (expr_of condition))) (length (emit_of out.old).locals))
        (emit_of out.old) (emit_of out.new) tt) }
{
    let block = vec![in alloc; BStmt::Assume(condition)]?;
    out.put(alloc, None, block)
}

/// A turn is made: the guard holds.
fn guard_holds(
    alloc: Global,
    guard: &Expr,
    at: Pos,
    setting: Setting,
    out: &mut Emit,
) -> Result<(), Memory>
    ensures { OnOk result (Emits (code.guard_code (kinds_of setting.entry.kinds) (home_of setting.entry.home.now) at
        (viper guard.now) (λ x. x) (length (emit_of out.old).locals)) (emit_of out.old) (emit_of out.new) tt) }
{
    let condition = check(alloc, guard, setting.reading(at), out)?;
    assume(alloc, Box::into_inner(condition.expr), out)
}

/// The loop ends: the guard does not hold.
fn guard_fails(
    alloc: Global,
    guard: &Expr,
    at: Pos,
    setting: Setting,
    out: &mut Emit,
) -> Result<(), Memory>
    ensures { OnOk result (Emits (code.guard_code (kinds_of setting.entry.kinds) (home_of setting.entry.home.now) at
        (viper guard.now) t.Not (length (emit_of out.old).locals)) (emit_of out.old) (emit_of out.new) tt) }
{
    let condition = check(alloc, guard, setting.reading(at), out)?;
    assume(alloc, BExpr::Not(condition.expr), out)
}

/// Writes what stands before a loop: its invariants are exhaled, and its targets take any values.
pub fn loop_head(alloc: Global, w: &Loop, setting: Setting, out: &mut Emit) -> Result<(), Memory>
    ensures { OnOk result (Emits (part.head_code (kinds_of setting.entry.kinds) (home_of setting.entry.home.now) w.now.at
        (assertions_of w.now.invariants.items) w.now.targets.items (length (emit_of out.old).locals)) (emit_of out.old) (emit_of out.new) tt) }
{
    exhale_all(alloc, &w.invariants, w.at, setting, out)?;
    havoc(alloc, setting.home, &w.targets, out)
}

/// Writes the beginning of one arbitrary turn, before the body.
pub fn turn_head(alloc: Global, w: &Loop, setting: Setting, out: &mut Emit) -> Result<(), Memory>
    ensures { OnOk result (Emits (part.turn_head (kinds_of setting.entry.kinds) (home_of setting.entry.home.now) w.now.at
        (viper w.now.guard) (assertions_of w.now.invariants.items) (length (emit_of out.old).locals)) (emit_of out.old) (emit_of out.new) tt) }
{
    any_state(alloc, setting.kinds.layout, setting.home, out)?;
    produce_all(alloc, &w.invariants, setting.reading(w.at), out)?;
    guard_holds(alloc, &w.guard, w.at, setting, out)
}

/// Writes the end of the turn, behind the body.
pub fn turn_end(alloc: Global, w: &Loop, setting: Setting, out: &mut Emit) -> Result<(), Memory>
    ensures { OnOk result (Emits (part.turn_end (kinds_of setting.entry.kinds) (home_of setting.entry.home.now) w.now.turn
        (assertions_of w.now.invariants.items) (length (emit_of out.old).locals)) (emit_of out.old) (emit_of out.new) tt) }
{
    assert_all(alloc, &w.invariants, w.turn, setting, out)?;
    stop(alloc, out)
}

/// Writes how a run continues behind a loop.
pub fn after_loop(alloc: Global, w: &Loop, setting: Setting, out: &mut Emit) -> Result<(), Memory>
    ensures { OnOk result (Emits (code.after_code (kinds_of setting.entry.kinds) (home_of setting.entry.home.now) w.now.at
        (viper w.now.guard) (assertions_of w.now.invariants.items) (length (emit_of out.old).locals)) (emit_of out.old) (emit_of out.new) tt) }
{
    produce_all(alloc, &w.invariants, setting.reading(w.at), out)?;
    guard_fails(alloc, &w.guard, w.at, setting, out)
}
