// The variables of a procedure's formula.
ghost use Rattle.std.specs.Prelude.{◌≡◌, ◌++◌, ◌∷◌, [], slice_get, IfOk, OnOk};
ghost use Rattle.boogie_tree.specs.Values.{plain_type};
ghost use Rattle.boogie_tree.specs.Whole.{proc_of, stmt_of, stmts_of, type_of};
ghost use Rattle.boogie_tree.specs.declared.exprs.BBase.TheVariants as base;
ghost use Rattle.boogie_formula.specs.Choices.{own_types, own_types_stmt, type_there, variables_of};
ghost use Rattle.boogie_wp.specs.View.{types_in, types_of_all};

use crate::lift::bases;
use boogie_tree::{BBase, BStmt, BType, Local, Proc};
use std::alloc::Global;
use vb_base::Memory;

/// One more variable, of this type.
fn add_type(alloc: Global, ty: &BType, vars: &mut Vec<BType>) -> Result<(), Memory>
    ensures { OnOk result (types_of_all vars.new.items ≡ types_of_all vars.old.items ++ type_of ty.now ∷ []) }
{
    let keys = bases(alloc, &ty.keys)?;
    Ok(vars.push(BType {
        keys,
        base: ty.base,
    })?)
}

/// One more variable, of type bool.
fn add_bool(alloc: Global, vars: &mut Vec<BType>) -> Result<(), Memory>
    ensures { OnOk result (types_of_all vars.new.items ≡ types_of_all vars.old.items ++ plain_type base.Bool ∷ []) }
{
    let keys = Vec::new(alloc);
    Ok(vars.push(BType {
        keys,
        base: BBase::Bool,
    })?)
}

/// The variable of a `havoc`.
fn add_havoc(
    alloc: Global,
    locals: &[Local],
    local: usize,
    vars: &mut Vec<BType>,
) -> Result<(), Memory>
    ensures { OnOk result (types_of_all vars.new.items ≡ types_of_all vars.old.items ++ type_there (slice_get (types_in locals.now) local)) }
{
    match locals.get(local) {
        Some(local) => add_type(alloc, &local.ty, vars),
        None => Ok(()),
    }
}

/// The variables of a statement's `havoc` and `if (*)`.
#[cycle(counting)]
fn add_stmt(
    alloc: Global,
    locals: &[Local],
    stmt: &BStmt,
    vars: &mut Vec<BType>,
) -> Result<(), Memory>
    ensures { OnOk result (types_of_all vars.new.items ≡ types_of_all vars.old.items ++ own_types_stmt (types_in locals.now) (stmt_of stmt.now)) }
{
    match stmt {
        BStmt::Havoc(local) => add_havoc(alloc, locals, *local, vars),
        BStmt::If(_, then, other) => {
            add_block(alloc, locals, then, vars)?;
            add_block(alloc, locals, other, vars)
        }
        BStmt::Either(then, other) => {
            add_bool(alloc, vars)?;
            add_block(alloc, locals, then, vars)?;
            add_block(alloc, locals, other, vars)
        }
        BStmt::Assign(..) | BStmt::Put(..) | BStmt::Assume(_) | BStmt::Assert(..) => Ok(()),
    }
}

/// The same of a block.
#[cycle(counting)]
fn add_block(
    alloc: Global,
    locals: &[Local],
    stmts: &[BStmt],
    vars: &mut Vec<BType>,
) -> Result<(), Memory>
    ensures { OnOk result (types_of_all vars.new.items ≡ types_of_all vars.old.items ++ own_types (types_in locals.now) (stmts_of stmts.now)) }
{
    for stmt in stmts {
        add_stmt(alloc, locals, stmt, vars)?;
    }
    Ok(())
}

/// The locals, and then the variables of the statements.
pub(crate) fn variables(alloc: Global, proc: &Proc) -> Result<Vec<BType>, Memory>
    ensures { IfOk result (λ vars. types_of_all vars.items ≡ variables_of (proc_of proc.now)) }
{
    let mut vars = Vec::with_capacity(alloc, proc.locals.len())?;
    for local in &proc.locals {
        add_type(alloc, &local.ty, &mut vars)?;
    }
    add_block(alloc, &proc.locals, &proc.body, &mut vars)?;
    Ok(vars)
}
