// Statements, one after the other.
ghost use Rattle.std.specs.Prelude.{◌≡◌, ◌+◌, length, map, IfOk, OnOk, Some};
ghost use Rattle.boogie_tree.specs.Stmt as s;
ghost use Rattle.boogie_tree.specs.Whole.{expr_of, exprs_of, stmts_of};
ghost use Rattle.boogie_loops.specs.View.{wproc_of, wstmt_of, wstmts_of};
ghost use Rattle.boogie_cut.specs.Cut as c;
ghost use Rattle.boogie_cut.specs.View.{IsWritten, types_in, types_of_all};

use crate::calls::{add_params, write_call};
use crate::copies::{copy, copy_all};
use crate::loops::{write_either, write_if, write_loop};
use crate::pieces::behind;
use boogie_loops::{Procs, WProc, WStmt};
use boogie_tree::{BExpr, BStmt, BType, Local};
use std::alloc::Global;
use vb_base::{Label, Memory};

/// What statements may name: the procedures of the program, and the variables of their own.
#[derive(Clone, Copy)]
pub(crate) struct StatementScope<'a> {
    pub(crate) procs: &'a Procs<'a>,
    pub(crate) own: &'a [Local],
}

fn write_assign(alloc: Global, local: usize, e: &BExpr, out: &mut Vec<BStmt>) -> Result<(), Memory>
    ensures { OnOk result (stmts_of out.new.items ≡ c.join (stmts_of out.old.items) (c.alone (s.Assign local (expr_of e.now)))) }
{
    let e = copy(alloc, e)?;
    Ok(out.push(BStmt::Assign(local, e))?)
}

fn write_put(
    alloc: Global,
    map: usize,
    index: &[BExpr],
    e: &BExpr,
    out: &mut Vec<BStmt>,
) -> Result<(), Memory>
    ensures { OnOk result (stmts_of out.new.items ≡ c.join (stmts_of out.old.items) (c.alone (s.Put map (exprs_of index.now) (expr_of e.now)))) }
{
    let index = copy_all(alloc, index)?;
    let e = copy(alloc, e)?;
    Ok(out.push(BStmt::Put(map, index, e))?)
}

fn write_havoc(local: usize, out: &mut Vec<BStmt>) -> Result<(), Memory>
    ensures { OnOk result (stmts_of out.new.items ≡ c.join (stmts_of out.old.items) (c.alone (s.Havoc local))) }
{
    Ok(out.push(BStmt::Havoc(local))?)
}

fn write_assume(alloc: Global, e: &BExpr, out: &mut Vec<BStmt>) -> Result<(), Memory>
    ensures { OnOk result (stmts_of out.new.items ≡ c.join (stmts_of out.old.items) (c.alone (s.Assume (expr_of e.now)))) }
{
    let e = copy(alloc, e)?;
    Ok(out.push(BStmt::Assume(e))?)
}

fn write_assert(alloc: Global, label: &Label, e: &BExpr, out: &mut Vec<BStmt>) -> Result<(), Memory>
    ensures { OnOk result (stmts_of out.new.items ≡ c.join (stmts_of out.old.items) (c.alone (s.Assert label.now (expr_of e.now)))) }
{
    let e = copy(alloc, e)?;
    Ok(out.push(BStmt::Assert(*label, e))?)
}

/// The call of a procedure.
fn cut_call(
    alloc: Global,
    callee: &WProc,
    own: &[Local],
    targets: &[usize],
    arguments: &[BExpr],
    types: &mut Vec<BType>,
    out: &mut Vec<BStmt>,
) -> Result<(), Memory>
    ensures { OnOk result (IsWritten
        (c.cut_call targets.now (exprs_of arguments.now) (length (types_in own.now) + length (types_of_all types.old.items)) (Some (wproc_of callee.now)))
        (types_of_all types.old.items) (stmts_of out.old.items) (types_of_all types.new.items) (stmts_of out.new.items)) }
{
    let n = behind(own.len(), types.len())?;
    add_params(alloc, callee, types)?;
    write_call(alloc, callee, n, targets, arguments, out)
}

/// The statement, with its further locals behind those of these types.
#[cycle(cutting)]
fn cut_stmt(
    alloc: Global,
    frame: &StatementScope<'_>,
    stmt: &WStmt,
    types: &mut Vec<BType>,
    out: &mut Vec<BStmt>,
) -> Result<(), Memory>
    ensures { OnOk result (IsWritten
        (c.cut_stmt (map wproc_of frame.now.procs.now.all.now) (types_in frame.now.own.now) (wstmt_of stmt.now) (length (types_in frame.now.own.now) + length (types_of_all types.old.items)))
        (types_of_all types.old.items) (stmts_of out.old.items) (types_of_all types.new.items) (stmts_of out.new.items)) }
{
    match stmt {
        WStmt::Assign(local, e) => write_assign(alloc, *local, e, out),
        WStmt::Put(map, index, e) => write_put(alloc, *map, index, e, out),
        WStmt::Havoc(local) => write_havoc(*local, out),
        WStmt::Assume(e) => write_assume(alloc, e, out),
        WStmt::Assert(label, e) => write_assert(alloc, label, e, out),
        WStmt::If(e, then, other) => {
            let first = block(alloc, frame, then, types)?;
            let second = block(alloc, frame, other, types)?;
            write_if(alloc, e, first, second, out)
        }
        WStmt::Either(then, other) => {
            let first = block(alloc, frame, then, types)?;
            let second = block(alloc, frame, other, types)?;
            write_either(first, second, out)
        }
        WStmt::While(guard, invariants, body) => {
            let turn = block(alloc, frame, body, types)?;
            write_loop(alloc, frame.own, guard, invariants, body, turn, out)
        }
        WStmt::Call(targets, name, arguments) => match frame.procs.named(name) {
            Some(callee) => cut_call(alloc, callee, frame.own, targets, arguments, types, out),
            None => Ok(()),
        },
    }
}

/// The statements of a block.
#[cycle(cutting)]
fn block(
    alloc: Global,
    frame: &StatementScope<'_>,
    stmts: &[WStmt],
    types: &mut Vec<BType>,
) -> Result<Vec<BStmt>, Memory>
    ensures { IfOk result (λ xs. IsWritten
        (c.cut (map wproc_of frame.now.procs.now.all.now) (types_in frame.now.own.now) (wstmts_of stmts.now) (length (types_in frame.now.own.now) + length (types_of_all types.old.items)))
        (types_of_all types.old.items) s.skip (types_of_all types.new.items) (stmts_of xs.items)) }
{
    let mut out = Vec::new(alloc);
    cut_block(alloc, frame, stmts, types, &mut out)?;
    Ok(out)
}

/// The same behind other statements.
#[cycle(cutting)]
pub(crate) fn cut_block(
    alloc: Global,
    frame: &StatementScope<'_>,
    stmts: &[WStmt],
    types: &mut Vec<BType>,
    out: &mut Vec<BStmt>,
) -> Result<(), Memory>
    ensures { OnOk result (IsWritten
        (c.cut (map wproc_of frame.now.procs.now.all.now) (types_in frame.now.own.now) (wstmts_of stmts.now) (length (types_in frame.now.own.now) + length (types_of_all types.old.items)))
        (types_of_all types.old.items) (stmts_of out.old.items) (types_of_all types.new.items) (stmts_of out.new.items)) }
{
    for stmt in stmts {
        cut_stmt(alloc, frame, stmt, types, out)?;
    }
    Ok(())
}
