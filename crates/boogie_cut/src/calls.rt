// Calls.
ghost use Rattle.std.specs.Prelude.{◌≡◌, ◌++◌, ◌∷◌, [], take, Some, IfOk, OnOk};
ghost use Rattle.std.specs.List.{range_with_len};
ghost use Rattle.boogie_tree.specs.Whole.{exprs_of, stmts_of, type_of};
ghost use Rattle.boogie_loops.specs.Procedures.{param_types};
ghost use Rattle.boogie_loops.specs.View.{wproc_of};
ghost use Rattle.boogie_cut.specs.Cut as c;
ghost use Rattle.boogie_cut.specs.View.{types_in, types_of_all};

use crate::copies::{Renumbering, bases};
use crate::pieces::{behind, write_asserts, write_assigns, write_assumes, write_havocs};
use boogie_loops::WProc;
use boogie_tree::{BExpr, BStmt, BType, Local};
use std::alloc::Global;
use vb_base::Memory;

/// So many of the locals, or all where there are fewer.
fn first_of(locals: &[Local], many: usize) -> &[Local]
    ensures { result.now ≡ take many locals.now }
{
    if many < locals.len() {
        &locals[..many]
    } else {
        locals
    }
}

/// The parameters of a procedure.
fn params(proc: &WProc) -> &[Local]
    ensures { types_in result.now ≡ param_types (wproc_of proc.now) }
{
    first_of(&proc.locals, proc.params)
}

fn add_type(alloc: Global, ty: &BType, types: &mut Vec<BType>) -> Result<(), Memory>
    ensures { OnOk result (types_of_all types.new.items ≡ types_of_all types.old.items ++ type_of ty.now ∷ []) }
{
    let keys = bases(alloc, &ty.keys)?;
    Ok(types.push(BType {
        keys,
        base: ty.base,
    })?)
}

/// Adds the types of the locals.
fn add_types(alloc: Global, locals: &[Local], types: &mut Vec<BType>) -> Result<(), Memory>
    ensures { OnOk result (types_of_all types.new.items ≡ types_of_all types.old.items ++ types_in locals.now) }
{
    for local in locals {
        add_type(alloc, &local.ty, types)?;
    }
    Ok(())
}

/// A further local for each parameter of the procedure.
pub(crate) fn add_params(
    alloc: Global,
    callee: &WProc,
    types: &mut Vec<BType>,
) -> Result<(), Memory>
    ensures { OnOk result (types_of_all types.new.items ≡ types_of_all types.old.items ++ param_types (wproc_of callee.now)) }
{
    add_types(alloc, params(callee), types)
}

/// So many numbers from n on, and then the targets.
fn numbers(alloc: Global, n: usize, many: usize, targets: &[usize]) -> Result<Vec<usize>, Memory>
    ensures { IfOk result (λ is. is.items ≡ range_with_len n many ++ targets.now) }
{
    let mut numbers = Vec::new(alloc);
    for place in 0..many {
        numbers.push(behind(n, place)?)?;
    }
    numbers.extend_from_slice(targets)?;
    Ok(numbers)
}

/// The call of a procedure, whose arguments are kept from the local n on.
pub(crate) fn write_call(
    alloc: Global,
    callee: &WProc,
    n: usize,
    targets: &[usize],
    arguments: &[BExpr],
    out: &mut Vec<BStmt>,
) -> Result<(), Memory>
    ensures { OnOk result (stmts_of out.new.items ≡ c.join (stmts_of out.old.items)
        (c.cut_call targets.now (exprs_of arguments.now) n (Some (wproc_of callee.now))).stmts) }
{
    let numbers = numbers(alloc, n, arguments.len(), targets)?;
    let names = Renumbering::Of(&numbers);
    write_assigns(alloc, n, arguments, out)?;
    write_asserts(alloc, names, &callee.preconditions, out)?;
    write_havocs(targets, out)?;
    write_assumes(alloc, names, &callee.postconditions, out)
}
