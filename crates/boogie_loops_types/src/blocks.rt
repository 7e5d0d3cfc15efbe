// The types of statements.
ghost use Rattle.std.specs.Prelude.{◌≡◌, map, nat_le, ◌&&◌};
ghost use Rattle.boogie_tree.specs.Whole.{expr_of};
ghost use Rattle.boogie_types.specs.Typed.{types_in};
ghost use Rattle.boogie_loops.specs.View.{wproc_of, wstmt_of, wstmts_of};
ghost use Rattle.boogie_loops.specs.WideTypes as ty;

use crate::calls::is_call;
use crate::heads::{are_bools, is_guard};
use crate::marks::Marks;
use boogie_loops::{Procs, WStmt};
use boogie_tree::Local;
use boogie_types::{is_assign, is_bool, is_put};

/// Whether a statement is well-typed, by the procedures of the program and the variables, the first of which are so many
/// parameters.
#[cycle(blocks)]
fn is_typed_stmt(
    procs: &Procs<'_>,
    marks: &mut Marks,
    locals: &[Local],
    params: usize,
    stmt: &WStmt,
) -> bool
    ensures { result ≡ ty.is_wide_stmt (map wproc_of procs.now.all.now) (types_in locals.now) params (wstmt_of stmt.now) }
{
    match stmt {
        WStmt::Assign(number, e) => params <= *number && is_assign(locals, *number, e),
        WStmt::Put(number, es, e) => params <= *number && is_put(locals, *number, es, e),
        WStmt::Havoc(number) => params <= *number && *number < locals.len(),
        WStmt::Assume(e) => is_bool(locals, e),
        WStmt::Assert(_, e) => is_bool(locals, e),
        WStmt::If(e, then, other) => {
            if !is_bool(locals, e) {
                return false;
            }
            is_typed(procs, marks, locals, params, then)
                && is_typed(procs, marks, locals, params, other)
        }
        WStmt::Either(then, other) => {
            is_typed(procs, marks, locals, params, then)
                && is_typed(procs, marks, locals, params, other)
        }
        WStmt::While(guard, invariants, body) => {
            if !is_guard(locals, guard) || !are_bools(locals, invariants) {
                return false;
            }
            is_typed(procs, marks, locals, params, body)
        }
        WStmt::Call(targets, name, es) => is_call(procs, marks, locals, params, targets, name, es),
    }
}

/// Whether each statement of a block is.
#[cycle(blocks)]
pub(crate) fn is_typed(
    procs: &Procs<'_>,
    marks: &mut Marks,
    locals: &[Local],
    params: usize,
    stmts: &[WStmt],
) -> bool
    ensures { result ≡ ty.is_wide (map wproc_of procs.now.all.now) (types_in locals.now) params (wstmts_of stmts.now) }
{
    for stmt in stmts {
        if !is_typed_stmt(procs, marks, locals, params, stmt) {
            return false;
        }
    }
    true
}
