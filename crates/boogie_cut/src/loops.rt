// Loops, and the blocks of a branch.
ghost use Rattle.std.specs.Prelude.{◌≡◌, OnOk};
ghost use Rattle.std.specs.List.{filter, range_with_len};
ghost use Rattle.std.specs.Option.{option_map};
ghost use Rattle.boogie_tree.specs.Stmt as s;
ghost use Rattle.boogie_tree.specs.Whole.{expr_of, stmts_of};
ghost use Rattle.boogie_loops.specs.Changed.{changes, targets};
ghost use Rattle.boogie_loops.specs.View.{wstmts_of};
ghost use Rattle.boogie_cut.specs.Cut as c;
ghost use Rattle.boogie_cut.specs.View.{clauses_of, types_in};

use crate::changed::targets;
use crate::copies::{Renumbering, copy};
use crate::pieces::{write_asserts, write_assumes, write_havocs};
use boogie_loops::{Clause, WStmt};
use boogie_tree::{BExpr, BStmt, Local};
use std::alloc::Global;
use vb_base::Memory;

pub(crate) fn write_if(
    alloc: Global,
    e: &BExpr,
    then: Vec<BStmt>,
    other: Vec<BStmt>,
    out: &mut Vec<BStmt>,
) -> Result<(), Memory>
    ensures { OnOk result (stmts_of out.new.items ≡ c.join (stmts_of out.old.items)
        (c.alone (s.If (expr_of e.now) (stmts_of then.items) (stmts_of other.items)))) }
{
    let condition = copy(alloc, e)?;
    Ok(out.push(BStmt::If(condition, then, other))?)
}

pub(crate) fn write_either(
    then: Vec<BStmt>,
    other: Vec<BStmt>,
    out: &mut Vec<BStmt>,
) -> Result<(), Memory>
    ensures { OnOk result (stmts_of out.new.items ≡ c.join (stmts_of out.old.items)
        (c.alone (s.Either (stmts_of then.items) (stmts_of other.items)))) }
{
    Ok(out.push(BStmt::Either(then, other))?)
}

/// What stands before a turn: the invariants hold, and the first n variables that the body changes take any values.
fn write_head(
    alloc: Global,
    n: usize,
    invariants: &[Clause],
    body: &[WStmt],
    out: &mut Vec<BStmt>,
) -> Result<(), Memory>
    ensures { OnOk result (stmts_of out.new.items ≡ c.join (stmts_of out.old.items) (c.join (c.asserts (clauses_of invariants.now))
        (c.join (c.havocs (filter (changes (wstmts_of body.now)) (range_with_len 0 n))) (c.assumes (clauses_of invariants.now))))) }
{
    let targets = targets(alloc, n, body)?;
    write_asserts(alloc, Renumbering::Own, invariants, out)?;
    write_havocs(&targets, out)?;
    write_assumes(alloc, Renumbering::Own, invariants, out)
}

/// After a turn the invariants hold, and no run continues.
fn end_turn(alloc: Global, invariants: &[Clause], turn: &mut Vec<BStmt>) -> Result<(), Memory>
    ensures { OnOk result (stmts_of turn.new.items ≡ c.cut_turn (clauses_of invariants.now) (stmts_of turn.old.items)) }
{
    write_asserts(alloc, Renumbering::Own, invariants, turn)?;
    Ok(turn.push(BStmt::Assume(BExpr::Bool(false)))?)
}

/// A turn, or none.
fn write_guard(
    alloc: Global,
    guard: &Option<BExpr>,
    turn: Vec<BStmt>,
    out: &mut Vec<BStmt>,
) -> Result<(), Memory>
    ensures { OnOk result (stmts_of out.new.items ≡ c.join (stmts_of out.old.items)
        (c.alone (c.cut_guard (option_map expr_of guard.now) (stmts_of turn.items)))) }
{
    match guard {
        Some(e) => write_if(alloc, e, turn, Vec::new(alloc), out),
        None => write_either(turn, Vec::new(alloc), out),
    }
}

/// The loop, where the turn is what is written for its body.
pub(crate) fn write_loop(
    alloc: Global,
    own: &[Local],
    guard: &Option<BExpr>,
    invariants: &[Clause],
    body: &[WStmt],
    mut turn: Vec<BStmt>,
    out: &mut Vec<BStmt>,
) -> Result<(), Memory>
    ensures { OnOk result (stmts_of out.new.items ≡ c.join (stmts_of out.old.items)
        (c.cut_loop (option_map expr_of guard.now) (clauses_of invariants.now) (targets (types_in own.now) (wstmts_of body.now)) (stmts_of turn.items))) }
{
    end_turn(alloc, invariants, &mut turn)?;
    write_head(alloc, own.len(), invariants, body, out)?;
    write_guard(alloc, guard, turn, out)
}
