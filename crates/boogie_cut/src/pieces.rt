// Rows of statements of one kind.
ghost use Rattle.std.specs.Prelude.{◌≡◌, OnOk, IfOk, ◌+◌};
ghost use Rattle.boogie_tree.specs.Whole.{exprs_of, stmts_of};
ghost use Rattle.boogie_cut.specs.Cut as c;
ghost use Rattle.boogie_cut.specs.View.{clauses_of, number_by};

use crate::copies::{Renumbering, copy, copy_by};
use boogie_loops::Clause;
use boogie_tree::{BExpr, BStmt};
use std::alloc::Global;
use vb_base::Memory;

pub(crate) fn write_asserts(
    alloc: Global,
    names: Renumbering<'_>,
    clauses: &[Clause],
    out: &mut Vec<BStmt>,
) -> Result<(), Memory>
    ensures { OnOk result (stmts_of out.new.items ≡ c.join (stmts_of out.old.items) (c.asserts (c.renamed_clauses (number_by names.entry) (clauses_of clauses.now)))) }
{
    for clause in clauses {
        let e = copy_by(alloc, names, &clause.e)?;
        out.push(BStmt::Assert(clause.label, e))?;
    }
    Ok(())
}

pub(crate) fn write_assumes(
    alloc: Global,
    names: Renumbering<'_>,
    clauses: &[Clause],
    out: &mut Vec<BStmt>,
) -> Result<(), Memory>
    ensures { OnOk result (stmts_of out.new.items ≡ c.join (stmts_of out.old.items) (c.assumes (c.renamed_clauses (number_by names.entry) (clauses_of clauses.now)))) }
{
    for clause in clauses {
        let e = copy_by(alloc, names, &clause.e)?;
        out.push(BStmt::Assume(e))?;
    }
    Ok(())
}

pub(crate) fn write_havocs(locals: &[usize], out: &mut Vec<BStmt>) -> Result<(), Memory>
    ensures { OnOk result (stmts_of out.new.items ≡ c.join (stmts_of out.old.items) (c.havocs locals.now)) }
{
    for local in locals {
        out.push(BStmt::Havoc(*local))?;
    }
    Ok(())
}

/// The number of the local behind so many. There is no memory for more locals than a number can count.
pub(crate) fn behind(before: usize, locals: usize) -> Result<usize, Memory>
    ensures { IfOk result (λ n. n ≡ before + locals) }
{
    before.checked_add(locals).ok_or(Memory)
}

/// The variables from n on get the values of the arguments.
pub(crate) fn write_assigns(
    alloc: Global,
    n: usize,
    arguments: &[BExpr],
    out: &mut Vec<BStmt>,
) -> Result<(), Memory>
    ensures { OnOk result (stmts_of out.new.items ≡ c.join (stmts_of out.old.items) (c.assigns n (exprs_of arguments.now))) }
{
    let mut local = n;
    for argument in arguments {
        let e = copy(alloc, argument)?;
        out.push(BStmt::Assign(local, e))?;
        local = behind(local, 1)?;
    }
    Ok(())
}
